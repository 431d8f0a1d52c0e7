// Files that are read whole.
ghost use Rattle.std.specs.Prelude.{◌≡◌, ◌≢◌, ◌↔◌, ◌+◌, ◌<◌, ◌≤◌, ℕ, List, [], length, vec_len, IfOk, OnOk, OnErr, IfSome, IsErrOf, IsTrue, IsFalse};
ghost use Rattle.std.specs.Io.KnownBytes.{IsAtEnd, prepend_known};
ghost use Rattle.ltt_base.specs.Outside.{Rose};
ghost use Rattle.ltt_base.specs.declared.reading.ReadFault.{ReadFault};

use crate::outside::Files;
use crate::refusal::Memory;
use crate::text::Text;
use std::alloc::Global;
use thiserror::Error;

/// The bytes that one read asks for.
const PIECE: usize = 65_536;

/// Why a file wasn't read whole.
#[derive(Debug, Clone, Copy, Error)]
pub enum ReadFault {
    #[error("the files failed")]
    Failed,
    #[error("the file is too long")]
    TooLong,
    #[error("out of memory")]
    Memory,
}

/// Reads a file from its start to its end, in calls of 65,536 bytes.
///
/// `limit` is the greatest length that is taken, in bytes. `Failed`: the files failed, and counted it at this name.
/// `TooLong`: there are more bytes than the limit.
pub fn read_file<F: Files>(
    alloc: Global,
    files: &mut F,
    name: &str,
    limit: usize,
) -> Result<Text, ReadFault>
    ensures held { (other : List ℕ) → F.held files.new other ≡ F.held files.old other }
    ensures counts { (other : List ℕ) → F.faults files.old other ≤ F.faults files.new other }

    ensures bytes { IfOk result (λ text. IfSome (F.held files.old name.now) (λ bytes. text ≡ bytes)) }
    ensures within { IfOk result (λ text. length text ≤ limit) }

    ensures failed { IsErrOf result ReadFault.Failed → Rose (F.faults files.old name.now) (F.faults files.new name.now) }
    ensures too_long { IsErrOf result ReadFault.TooLong → IfSome (F.held files.old name.now) (λ bytes. limit < length bytes) }
{
    match files.select(name) {
        Ok(()) => read_selected(alloc, files, limit),
        Err(_) => Err(ReadFault::Failed),
    }
}

/// Reads what is left of the selected file, as `read_file` does.
pub fn read_selected<F: Files>(
    alloc: Global,
    files: &mut F,
    limit: usize,
) -> Result<Text, ReadFault>
    requires { (name : List ℕ) × F.is_selected files.old name }
    ensures held { (other : List ℕ) → F.held files.new other ≡ F.held files.old other }
    ensures counts { (other : List ℕ) → F.faults files.old other ≤ F.faults files.new other }

    ensures bytes { IfOk result (λ text. IfSome (F.left files.old) (λ bytes. text ≡ bytes)) }
    ensures within { IfOk result (λ text. length text ≤ limit) }

    ensures failed { IsErrOf result ReadFault.Failed → (name : List ℕ) → F.is_selected files.old name
        → Rose (F.faults files.old name) (F.faults files.new name) }
    ensures too_long { IsErrOf result ReadFault.TooLong → IfSome (F.left files.old) (λ bytes. limit < length bytes) }
{
    let Ok(mut buffer) = room(alloc, PIECE) else {
        return Err(ReadFault::Memory);
    };
    read_by(alloc, files, &mut buffer, limit)
}

// A buffer of so many bytes.
fn room(alloc: Global, bytes: usize) -> Result<Vec<u8>, Memory>
    ensures { IfOk result (λ buffer. length buffer.items ≡ bytes) }
{
    match vec![in alloc; 0u8; bytes] {
        Ok(buffer) => Ok(buffer),
        Err(_) => Err(Memory),
    }
}

// Reads what is left through this buffer.
fn read_by<F: Files>(
    alloc: Global,
    files: &mut F,
    buffer: &mut [u8],
    limit: usize,
) -> Result<Text, ReadFault>
    requires selected { (name : List ℕ) × F.is_selected files.old name }
    requires room { 0 < length buffer.old }
    ensures held { (other : List ℕ) → F.held files.new other ≡ F.held files.old other }
    ensures counts { (other : List ℕ) → F.faults files.old other ≤ F.faults files.new other }
    ensures bytes { IfOk result (λ text. IfSome (F.left files.old) (λ bytes. text ≡ bytes)) }
    ensures within { IfOk result (λ text. length text ≤ limit) }
    ensures failed { IsErrOf result ReadFault.Failed → (name : List ℕ) → F.is_selected files.old name
        → Rose (F.faults files.old name) (F.faults files.new name) }
    ensures too_long { IsErrOf result ReadFault.TooLong → IfSome (F.left files.old) (λ bytes. limit < length bytes) }
{
    let mut text = Text::new(alloc);
    while read_piece(files, buffer, &mut text, limit)? {}
    Ok(text)
}

// Moves the bytes of one read behind the text. Answers whether there were any.
fn read_piece<F: Files>(
    files: &mut F,
    buffer: &mut [u8],
    text: &mut Text,
    limit: usize,
) -> Result<bool, ReadFault>
    requires selected { (name : List ℕ) × F.is_selected files.old name }
    requires room { 0 < length buffer.old }
    requires within { length text.old ≤ limit }
    ensures held { (other : List ℕ) → F.held files.new other ≡ F.held files.old other }
    ensures counts { (other : List ℕ) → F.faults files.old other ≤ F.faults files.new other }
    ensures kept { OnOk result ((other : List ℕ) → F.is_selected files.new other ↔ F.is_selected files.old other) }

    ensures bytes { OnOk result (prepend_known text.new (F.left files.new) ≡ prepend_known text.old (F.left files.old)) }
    ensures more { IfOk result (λ more. IsTrue more → length text.old < length text.new) }
    ensures end { IfOk result (λ more. IsFalse more → IsAtEnd (F.left files.new)) }
    ensures within { OnOk result (length text.new ≤ limit) }
    ensures room { length buffer.new ≡ length buffer.old }

    ensures failed { IsErrOf result ReadFault.Failed → (name : List ℕ) → F.is_selected files.old name
        → Rose (F.faults files.old name) (F.faults files.new name) }
    ensures too_long { IsErrOf result ReadFault.TooLong
        → IfSome (prepend_known text.old (F.left files.old)) (λ bytes. limit < length bytes) }
{
    let Ok(count) = files.read(buffer) else {
        return Err(ReadFault::Failed);
    };
    if count > limit - text.len() {
        return Err(ReadFault::TooLong);
    }
    match text.extend(&buffer[..count]) {
        Ok(()) => Ok(count > 0),
        Err(Memory) => Err(ReadFault::Memory),
    }
}
