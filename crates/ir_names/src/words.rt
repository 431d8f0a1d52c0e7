// Names and integers as texts of their own.
ghost use Rattle.std.specs.Prelude.{◌≡◌, ◌++◌, [], false, decimal, IfOk};
ghost use Rattle.ir_names.specs.Names.{name_text};
ghost use Rattle.ir_names.specs.Numbers.{integer_text};
ghost use Rattle.ir_names.specs.Words.{shown_name, named_word};

use crate::names::{put_name, put_shown};
use crate::numbers::put_integer;
use crate::printer::Printer;
use ir_values::Width;
use itoa::Buffer;
use ltt_base::{Memory, Text};
use std::alloc::Global;

/// A text to which a printer puts pieces. Without memory it takes no more.
#[derive(Drop)]
struct Word {
    text: Text,
    failed: bool,
}

impl Printer for Word {
    ghost use Rattle.std.specs.Prelude.{[], cond, Some};

    ghost state = { λ word. record {
      taken = Some [];
      faults = cond word.failed 1 0;
      buffer = word.text;
      failed = word.failed;
      name = 0;
    } };

    fn put(&mut self, piece: &[u8]) {
        if !self.failed && self.text.extend(piece).is_err() {
            self.failed = true;
        }
    }

    fn has_failed(&self) -> bool {
        self.failed
    }
}

fn begun(text: Text) -> Word
    ensures text { result.text ≡ text }
    ensures begun { result.failed ≡ false }
{
    Word {
        text,
        failed: false,
    }
}

fn ended(word: Word) -> Result<Text, Memory>
    ensures { IfOk result (λ text. (text ≡ word.text) × (word.failed ≡ false)) }
{
    let Word { text, failed } = word;
    if failed { Err(Memory) } else { Ok(text) }
}

fn put_whole_name(word: &mut Word, name: &[u8])
    requires empty { word.old.text ≡ [] }
    requires begun { word.old.failed ≡ false }
    ensures { word.new.failed ≡ false → word.new.text ≡ name_text name.now }
{
    put_name(word, name)
}

fn put_whole_integer(word: &mut Word, width: Width, n: u64)
    requires empty { word.old.text ≡ [] }
    requires begun { word.old.failed ≡ false }
    ensures { word.new.failed ≡ false → word.new.text ≡ integer_text width n }
{
    put_integer(word, width, n)
}

fn put_whole_shown(word: &mut Word, name: &[u8])
    requires empty { word.old.text ≡ [] }
    requires begun { word.old.failed ≡ false }
    ensures { word.new.failed ≡ false → word.new.text ≡ shown_name name.now }
{
    put_shown(word, name)
}

/// A name without its sign, as the text of a module has it.
pub fn name_word(alloc: Global, name: &[u8]) -> Result<Text, Memory>
    ensures { IfOk result (λ word. word ≡ name_text name.now) }
{
    let mut word = begun(Text::new(alloc));
    put_whole_name(&mut word, name);
    ended(word)
}

/// A name without its sign, as a refusal shows it.
fn shown_word(alloc: Global, name: &[u8]) -> Result<Text, Memory>
    ensures { IfOk result (λ word. word ≡ shown_name name.now) }
{
    let mut word = begun(Text::new(alloc));
    put_whole_shown(&mut word, name);
    ended(word)
}

/// A name behind its sign, as a refusal shows it.
pub fn named_word(alloc: Global, sign: &[u8], name: &[u8]) -> Result<Text, Memory>
    ensures { IfOk result (λ word. word ≡ named_word sign.now name.now) }
{
    let shown = shown_word(alloc, name)?;
    let mut word = Text::copy(alloc, sign)?;
    word.extend(shown.bytes())?;
    Ok(word)
}

/// An integer in signed decimal; one of type i1 as `true` or `false`.
///
/// Source: LLVM Language Reference, "Simple Constants".
pub fn integer_word(alloc: Global, width: Width, n: u64) -> Result<Text, Memory>
    ensures { IfOk result (λ word. word ≡ integer_text width n) }
{
    let mut word = begun(Text::new(alloc));
    put_whole_integer(&mut word, width, n);
    ended(word)
}

/// A number as its digits.
pub fn numeral(alloc: Global, n: u64) -> Result<Text, Memory>
    ensures { IfOk result (λ text. text ≡ decimal n) }
{
    Text::copy(alloc, Buffer::new().format(n).as_bytes())
}
