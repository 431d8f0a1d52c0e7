// Types that are left out, by their texts.
ghost use Rattle.std.specs.Prelude.{◌≡◌, ◌≤◌, length, take, IfOk};
ghost use Rattle.std.specs.List.{prefix_len};
ghost use Rattle.check_types.specs.Left as spec;

use check_names::{Flaw, when, worded_when};
use ltt_base::{Code, Memory};
use std::alloc::Global;

#[tactic(auto, unfolding(crate::specs::Left::is_word_byte))]
fn is_word_byte(byte: u8) -> bool
    ensures { result ≡ spec.is_word_byte byte }
{
    b'a' <= byte && byte <= b'z'
        || b'A' <= byte && byte <= b'Z'
        || b'0' <= byte && byte <= b'9'
        || byte == b'_'
}

fn word_len(text: &[u8]) -> usize
    ensures len { result ≡ prefix_len spec.is_word_byte text.now }
    ensures within { result ≤ length text.now }
{
    text.iter().take_while(|byte| is_word_byte(**byte)).count()
}

fn leading_word(text: &[u8]) -> &[u8]
    ensures { result.now ≡ spec.leading_word text.now }
{
    &text[..word_len(text)]
}

fn first_mark(text: &[u8]) -> &[u8]
    ensures { result.now ≡ take 1 text.now }
{
    &text[..text.len().min(1)]
}

/// The word that a refusal shows of a left-out type: its first token, but `addrspace` for a pointer with an address space.
#[tactic(auto, unfolding(crate::specs::Left::left_word))]
pub fn left_word(text: &[u8]) -> &[u8]
    ensures { result.now ≡ spec.left_word text.now }
{
    let word = leading_word(text);
    if word == b"ptr".as_slice() {
        b"addrspace"
    } else if word == b"".as_slice() {
        first_mark(text)
    } else {
        word
    }
}

/// The flaw of a left-out type.
///
/// The word `metadata` and an array of 2^64 parts or more are types that may not stand where they do. A quiet unit has no
/// flaw for the first.
#[tactic(auto, unfolding(crate::specs::Left::left_flaw))]
pub fn left_flaw(alloc: Global, quiet: bool, text: &[u8]) -> Result<Option<Flaw>, Memory>
    ensures { IfOk result (λ flaw. flaw ≡ spec.left_flaw quiet text.now) }
{
    if text == b"metadata".as_slice() {
        return Ok(when(!quiet, Code::E06));
    }
    if text.starts_with(b"[") {
        return Ok(when(true, Code::E06));
    }
    worded_when(alloc, true, Code::E07, left_word(text))
}
