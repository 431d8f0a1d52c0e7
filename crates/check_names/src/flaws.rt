ghost use Rattle.std.specs.Prelude.{◌≡◌, IfOk};
ghost use Rattle.check_names.specs.Flaws as spec;
ghost use Rattle.check_names.specs.Flaws.{◌then◌};

use ir_names::named_word;
use ltt_base::{Code, Memory, Text};
use std::alloc::Global;

/// What is wrong with a unit: the code, and the word that the refusal shows.
///
/// Without a word of its own it shows the unit's first token.
#[derive(Drop)]
pub struct Flaw {
    pub code: Code,
    pub name: Option<Text>,
}

fn rank(code: Code) -> u8
    ensures { result ≡ spec.rank code }
{
    match code {
        Code::E01 => 1,
        Code::E02 => 2,
        Code::E03 => 3,
        Code::E04 => 4,
        Code::E05 => 5,
        Code::E06 => 6,
        Code::E07 => 7,
        Code::E08 => 8,
        Code::E09 => 9,
        Code::E10 => 10,
        Code::E11 => 11,
        Code::E12 => 12,
    }
}

/// Of two flaws in the order of the text, the one that counts: the lower code, and of one code the first.
pub fn counts(first: Option<Flaw>, second: Option<Flaw>) -> Option<Flaw>
    ensures { result ≡ first then second }
{
    match (first, second) {
        (Some(first), Some(second)) => Some(counted(first, second)),
        (Some(first), None) => Some(first),
        (None, second) => second,
    }
}

fn counted(first: Flaw, second: Flaw) -> Flaw
    ensures { result ≡ spec.counted first second }
{
    if rank(first.code) <= rank(second.code) {
        first
    } else {
        second
    }
}

/// A flaw that shows the unit's first token, where something is broken.
pub fn when(broken: bool, code: Code) -> Option<Flaw>
    ensures { result ≡ spec.when broken code }
{
    if broken {
        Some(Flaw { code, name: None })
    } else {
        None
    }
}

/// A flaw that shows a word of its own, where something is broken.
pub fn worded_when(
    alloc: Global,
    broken: bool,
    code: Code,
    word: &[u8],
) -> Result<Option<Flaw>, Memory>
    ensures { IfOk result (λ flaw. flaw ≡ spec.worded_when broken code word.now) }
{
    if broken {
        let name = Some(Text::copy(alloc, word)?);
        Ok(Some(Flaw { code, name }))
    } else {
        Ok(None)
    }
}

/// A flaw that shows a name behind its sign, where something is broken.
pub fn named_when(
    alloc: Global,
    broken: bool,
    code: Code,
    sign: &[u8],
    name: &[u8],
) -> Result<Option<Flaw>, Memory>
    ensures { IfOk result (λ flaw. flaw ≡ spec.named_when broken code sign.now name.now) }
{
    if broken {
        let name = Some(named_word(alloc, sign, name)?);
        Ok(Some(Flaw { code, name }))
    } else {
        Ok(None)
    }
}
