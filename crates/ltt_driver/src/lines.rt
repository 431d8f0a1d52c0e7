// The lines that a call writes on `err`. Those of one content take no memory.
ghost use Rattle.std.specs.Prelude.{◌≡◌, [], ◌++◌, codes, decimal, map, string_bytes, IfOk, OnOk};
ghost use Rattle.ltt_base.specs.Lines as Lines;
ghost use Rattle.ltt_base.specs.declared.refusal.Refusal.{Refusal};
ghost use Rattle.ltt_driver.specs.Asked as Asked;
ghost use Rattle.ltt_driver.specs.Outcome.{limit_refusal};

use itoa::Buffer;
use ltt_base::{Code, Memory, Refusal, Text};
use std::alloc::Global;

/// The forms that the words of a call have.
pub fn usage_line() -> &'static [u8]
    ensures { result.now ≡ Asked.usage_line }
{
    b"usage: ltt lower|show|summary|check FILE... | reprint FILE | run N ENTRY ANSWERS FILE... | place BASE N ENTRY ANSWERS FILE... | gen SEED CLASSES\n"
}

/// That the words have more files than a call takes.
#[tactic(auto, unfolding(ltt_base::specs::Lines::refusal_line))]
pub fn files_line() -> &'static [u8]
    ensures { result.now ≡ Lines.refusal_line [] (limit_refusal 0 (codes "files")) }
{
    b"ltt: E12 -:0:0: files\n"
}

/// That the output didn't take the text.
#[tactic(auto, unfolding(ltt_base::specs::Lines::write_fault_line))]
pub fn write_fault_line() -> &'static [u8]
    ensures { result.now ≡ Lines.write_fault_line }
{
    b"ltt: write fault\n"
}

/// That memory was wanted.
#[tactic(auto, unfolding(ltt_base::specs::Lines::memory_line))]
pub fn memory_line() -> &'static [u8]
    ensures { result.now ≡ Lines.memory_line }
{
    b"ltt: out of memory\n"
}

/// That the file of this name wasn't read.
#[tactic(auto, unfolding(ltt_base::specs::Lines::read_fault_line))]
pub fn read_fault_line(alloc: Global, name: &[u8]) -> Result<Text, Memory>
    ensures { IfOk result (λ line. line ≡ Lines.read_fault_line name.now) }
{
    let mut line = Text::copy(alloc, b"ltt: read fault: ")?;
    line.extend(name)?;
    line.extend(b"\n")?;
    Ok(line)
}

/// A refusal: its code, its place and its word. `names` are those of the files, of which place 1 is the first.
#[tactic(auto, unfolding(ltt_base::specs::Lines::refusal_line))]
pub fn refusal_line(alloc: Global, names: &[String], refusal: &Refusal) -> Result<Text, Memory>
    ensures { IfOk result (λ line. line ≡ Lines.refusal_line (map string_bytes names.now) refusal.now) }
{
    let mut line = Text::copy(alloc, b"ltt: ")?;
    line.extend(code_text(refusal.code))?;
    line.extend(b" ")?;
    line.extend(file_name(names, refusal.place.file))?;
    line.extend(b":")?;
    put_number(&mut line, refusal.place.line)?;
    line.extend(b":")?;
    put_number(&mut line, refusal.place.column)?;
    line.extend(b": ")?;
    line.extend(refusal.word.bytes())?;
    line.extend(b"\n")?;
    Ok(line)
}

/// The status of a refusal.
pub fn refusal_status(code: Code) -> u8
    ensures { result ≡ Lines.refusal_status code }
{
    match code {
        Code::E12 => 6,
        _ => 1,
    }
}

fn code_text(code: Code) -> &'static [u8]
    ensures { result.now ≡ Lines.code_text code }
{
    match code {
        Code::E01 => b"E01",
        Code::E02 => b"E02",
        Code::E03 => b"E03",
        Code::E04 => b"E04",
        Code::E05 => b"E05",
        Code::E06 => b"E06",
        Code::E07 => b"E07",
        Code::E08 => b"E08",
        Code::E09 => b"E09",
        Code::E10 => b"E10",
        Code::E11 => b"E11",
        Code::E12 => b"E12",
    }
}

// The name of a file by its number, from 1.
fn file_name(names: &[String], file: u32) -> &[u8]
    ensures { result.now ≡ Lines.file_name (map string_bytes names.now) file }
{
    if file == 0 {
        return b"-";
    }
    match names.get(file as usize - 1) {
        Some(name) => name.as_bytes(),
        None => b"-",
    }
}

// Adds a number in decimal.
fn put_number(line: &mut Text, number: u32) -> Result<(), Memory>
    ensures { OnOk result (line.new ≡ line.old ++ decimal number) }
{
    let mut buffer = Buffer::new();
    line.extend(buffer.format(number).as_bytes())
}
