ghost use Rattle.std.specs.Prelude.{◌≡◌, IfOk, drop, map};
ghost use Rattle.std.specs.List.{list_all};
ghost use Rattle.ir_lex.specs.Letters.{is_word_byte, is_word_start};
ghost use Rattle.module_grammar.specs.LeftUnits as spec;
ghost use Rattle.module_grammar.specs.Reading.{left_read};
ghost use Rattle.type_grammar.specs.Levels.{levels};
ghost use Rattle.type_grammar.specs.Reading.{reads};
ghost use Rattle.unit_grammar.specs.Attachments.{meta_kind, meta_node};
ghost use Rattle.unit_grammar.specs.Readers.{past, read};
ghost use Rattle.unit_grammar.specs.Seeing.{Gives, Passes, seen_piece, tokens};
ghost use Rattle.unit_grammar.specs.Signs.{passes};
ghost use Rattle.word_grammar.specs.Linkage.{linkage_words};

use crate::lines::line_end;
use crate::tokens::mark_end;
use ir_lex::Kind;
use ir_values::Form;
use ltt_base::{Memory, Text};
use std::alloc::Global;
use unit_grammar::{
    Input, Seen, Stop, is_kind, is_number, mark, of_kind, pass_kind, pass_word, without_first,
    word, word_of,
};
use word_grammar::dropped_word;

#[tactic(auto, unfolding(word_grammar::specs::Linkage::linkage_words))]
fn linkage_words() -> &'static [&'static str]
    ensures { map (λ text. text.now) result.now ≡ linkage_words }
{
    &[
        "private",
        "internal",
        "linkonce",
        "weak",
        "linkonce_odr",
        "weak_odr",
        "external",
        "available_externally",
        "common",
        "extern_weak",
        "appending",
    ]
}

#[tactic(auto, unfolding(crate::specs::LeftUnits::early_word))]
fn early_word(input: &Input<'_>, at: usize) -> Result<usize, Stop>
    ensures { Passes (tokens input.now) result (read (reads levels) spec.early_word (drop at (tokens input.now))) }
{
    match pass_word(input, at, linkage_words()) {
        Err(Stop::Absent) => {}
        found => return found,
    }
    dropped_word(input, at)
}

#[tactic(auto, unfolding(crate::specs::LeftUnits::early_run))]
fn early_run(input: &Input<'_>, at: usize) -> Result<usize, Stop>
    ensures { Passes (tokens input.now) result (read (reads levels) spec.early_run (drop at (tokens input.now))) }
{
    let mut at = at;
    for turn in 0..input.left(at) {
        match early_word(input, at) {
            Ok(behind) => at = behind,
            Err(Stop::Absent) => return Ok(at),
            Err(Stop::Deep) => return Err(Stop::Deep),
            Err(Stop::Memory) => return Err(Stop::Memory),
        }
    }
    Ok(at)
}

#[tactic(auto, unfolding(crate::specs::LeftUnits::left_words))]
fn left_words() -> &'static [&'static str]
    ensures { map (λ text. text.now) result.now ≡ spec.left_words }
{
    &[
        "alloca",
        "ptrtoint",
        "inttoptr",
        "bitcast",
        "addrspacecast",
        "freeze",
        "fence",
        "cmpxchg",
        "atomicrmw",
        "volatile",
        "atomic",
        "invoke",
        "landingpad",
        "resume",
        "catchswitch",
        "catchpad",
        "cleanuppad",
        "catchret",
        "cleanupret",
        "callbr",
        "indirectbr",
        "va_arg",
        "insertvalue",
        "extractelement",
        "insertelement",
        "shufflevector",
        "fadd",
        "fsub",
        "fmul",
        "fdiv",
        "frem",
        "fneg",
        "fcmp",
        "fptrunc",
        "fpext",
        "fptoui",
        "fptosi",
        "uitofp",
        "sitofp",
        "musttail",
        "byval",
        "alias",
        "ifunc",
        "module",
        "thread_local",
        "externally_initialized",
        "addrspace",
        "uselistorder",
        "jumptable",
    ]
}

fn telling(alloc: Global, seen: &Seen<'_>) -> Result<(Option<Text>, usize), Memory>
    ensures { IfOk result (λ told. told ≡ spec.telling (seen_piece seen.now)) }
{
    let text = Text::copy(alloc, seen.bytes)?;
    Ok((Some(text), seen.end))
}

#[tactic(auto, unfolding(crate::specs::LeftUnits::left_word))]
fn left_word(
    alloc: Global,
    input: &Input<'_>,
    at: usize,
) -> Result<((Option<Text>, usize), usize), Stop>
    ensures { Gives (tokens input.now) result (read (reads levels) spec.left_word (drop at (tokens input.now))) }
{
    let (seen, at) = word_of(input, at, left_words())?;
    Ok((telling(alloc, &seen)?, at))
}

#[tactic(auto, unfolding(crate::specs::LeftUnits::hash_word))]
fn hash_word(
    alloc: Global,
    input: &Input<'_>,
    at: usize,
) -> Result<((Option<Text>, usize), usize), Stop>
    ensures { Gives (tokens input.now) result (read (reads levels) spec.hash_word (drop at (tokens input.now))) }
{
    let (seen, at) = of_kind(input, at, Kind::HashWord)?;
    Ok((telling(alloc, &seen)?, at))
}

#[tactic(auto, unfolding(crate::specs::LeftUnits::access_words))]
fn access_words() -> &'static [&'static str]
    ensures { map (λ text. text.now) result.now ≡ spec.access_words }
{
    &["load", "store"]
}

#[tactic(auto, unfolding(crate::specs::LeftUnits::access_kinds))]
fn access_kinds() -> &'static [&'static str]
    ensures { map (λ text. text.now) result.now ≡ spec.access_kinds }
{
    &["volatile", "atomic"]
}

#[tactic(auto, unfolding(crate::specs::LeftUnits::access))]
fn access(
    alloc: Global,
    input: &Input<'_>,
    at: usize,
) -> Result<((Option<Text>, usize), usize), Stop>
    ensures { Gives (tokens input.now) result (read (reads levels) spec.access (drop at (tokens input.now))) }
{
    let at = pass_word(input, at, access_words())?;
    let (seen, at) = word_of(input, at, access_kinds())?;
    Ok((telling(alloc, &seen)?, at))
}

#[tactic(auto, unfolding(crate::specs::LeftUnits::telling_word))]
fn telling_word(
    alloc: Global,
    input: &Input<'_>,
    at: usize,
) -> Result<((Option<Text>, usize), usize), Stop>
    ensures { Gives (tokens input.now) result (read (reads levels) spec.telling_word (drop at (tokens input.now))) }
{
    match left_word(alloc, input, at) {
        Err(Stop::Absent) => {}
        found => return found,
    }
    match hash_word(alloc, input, at) {
        Err(Stop::Absent) => {}
        found => return found,
    }
    access(alloc, input, at)
}

#[tactic(auto, unfolding(crate::specs::LeftUnits::plain_head))]
fn plain_head(
    alloc: Global,
    input: &Input<'_>,
    at: usize,
) -> Result<((Option<Text>, usize), usize), Stop>
    ensures { Gives (tokens input.now) result (read (reads levels) spec.plain_head (drop at (tokens input.now))) }
{
    let at = early_run(input, at)?;
    let (told, at) = telling_word(alloc, input, at)?;
    Ok((told, at))
}

fn is_word_start(byte: u8) -> bool
    ensures { result ≡ is_word_start byte }
{
    byte.is_ascii_alphabetic() || byte == b'_'
}

fn is_word_byte(byte: u8) -> bool
    ensures { result ≡ is_word_byte byte }
{
    byte.is_ascii_alphanumeric() || byte == b'_'
}

fn are_word_bytes(bytes: &[u8]) -> bool
    ensures { result ≡ list_all is_word_byte bytes.now }
{
    bytes.iter().all(|byte| is_word_byte(*byte))
}

fn is_word(bytes: &[u8]) -> bool
    ensures { result ≡ spec.is_word bytes.now }
{
    match bytes {
        [] => false,
        [first, others @ ..] => is_word_start(*first) && are_word_bytes(others),
    }
}

fn node_word_of(alloc: Global, bytes: &[u8]) -> Result<Option<Text>, Memory>
    ensures { IfOk result (λ word. word ≡ spec.node_word_of bytes.now) }
{
    if is_word(without_first(bytes)) {
        Ok(Some(Text::copy(alloc, bytes)?))
    } else {
        Ok(None)
    }
}

fn is_meta_kind(seen: &Seen<'_>) -> bool
    ensures { result ≡ passes meta_kind (seen_piece seen.now) }
{
    is_kind(seen, Kind::Meta) && !is_number(seen, Kind::Meta, b'!')
}

#[tactic(auto, unfolding(crate::specs::LeftUnits::node_word))]
fn node_word(alloc: Global, input: &Input<'_>, at: usize) -> Result<(Option<Text>, usize), Stop>
    ensures { Gives (tokens input.now) result (read (reads levels) spec.node_word (drop at (tokens input.now))) }
{
    match input.at(at) {
        Some(seen) => {
            if is_meta_kind(&seen) {
                let word = node_word_of(alloc, seen.bytes)?;
                Ok((word, at + 1))
            } else {
                Err(Stop::Absent)
            }
        }
        None => Err(Stop::Absent),
    }
}

#[tactic(auto, unfolding(crate::specs::LeftUnits::maybe_distinct))]
fn maybe_distinct(input: &Input<'_>, at: usize) -> Result<usize, Stop>
    ensures { Passes (tokens input.now) result (read (reads levels) spec.maybe_distinct (drop at (tokens input.now))) }
{
    match word(input, at, b"distinct") {
        Ok(behind) => Ok(behind),
        Err(Stop::Absent) => Ok(at),
        Err(Stop::Deep) => Err(Stop::Deep),
        Err(Stop::Memory) => Err(Stop::Memory),
    }
}

#[tactic(auto, unfolding(crate::specs::LeftUnits::node_head))]
fn node_head(
    alloc: Global,
    input: &Input<'_>,
    at: usize,
) -> Result<((Option<Text>, usize), usize), Stop>
    ensures { Gives (tokens input.now) result (read (reads levels) spec.node_head (drop at (tokens input.now))) }
{
    let at = maybe_distinct(input, at)?;
    let (word, at) = node_word(alloc, input, at)?;
    let (end, at) = mark_end(input, at, b"(")?;
    Ok(((word, end), at))
}

fn pass_node(input: &Input<'_>, at: usize) -> Result<usize, Stop>
    ensures { Passes (tokens input.now) result (past meta_node (drop at (tokens input.now))) }
{
    match input.at(at) {
        Some(seen) => {
            if is_number(&seen, Kind::Meta, b'!') {
                Ok(at + 1)
            } else {
                Err(Stop::Absent)
            }
        }
        None => Err(Stop::Absent),
    }
}

fn pass_meta_kind(input: &Input<'_>, at: usize) -> Result<usize, Stop>
    ensures { Passes (tokens input.now) result (past meta_kind (drop at (tokens input.now))) }
{
    match input.at(at) {
        Some(seen) => {
            if is_meta_kind(&seen) {
                Ok(at + 1)
            } else {
                Err(Stop::Absent)
            }
        }
        None => Err(Stop::Absent),
    }
}

#[tactic(auto, unfolding(crate::specs::LeftUnits::left_name))]
fn left_name(input: &Input<'_>, at: usize) -> Result<usize, Stop>
    ensures { Passes (tokens input.now) result (read (reads levels) spec.left_name (drop at (tokens input.now))) }
{
    match pass_kind(input, at, Kind::Global) {
        Err(Stop::Absent) => {}
        found => return found,
    }
    match pass_kind(input, at, Kind::Local) {
        Err(Stop::Absent) => {}
        found => return found,
    }
    match pass_kind(input, at, Kind::Comdat) {
        Err(Stop::Absent) => {}
        found => return found,
    }
    pass_meta_kind(input, at)
}

#[tactic(auto, unfolding(crate::specs::LeftUnits::named_head))]
fn named_head(
    alloc: Global,
    input: &Input<'_>,
    at: usize,
) -> Result<((Option<Text>, usize), usize), Stop>
    ensures { Gives (tokens input.now) result (read (reads levels) spec.named_head (drop at (tokens input.now))) }
{
    let at = left_name(input, at)?;
    let at = mark(input, at, b"=")?;
    let (told, at) = plain_head(alloc, input, at)?;
    Ok((told, at))
}

#[tactic(auto, unfolding(crate::specs::LeftUnits::numbered_head))]
fn numbered_head(
    alloc: Global,
    input: &Input<'_>,
    at: usize,
) -> Result<((Option<Text>, usize), usize), Stop>
    ensures { Gives (tokens input.now) result (read (reads levels) spec.numbered_head (drop at (tokens input.now))) }
{
    let at = pass_node(input, at)?;
    let at = mark(input, at, b"=")?;
    match plain_head(alloc, input, at) {
        Err(Stop::Absent) => {}
        found => return found,
    }
    node_head(alloc, input, at)
}

#[tactic(auto, unfolding(crate::specs::LeftUnits::left_head))]
fn left_head(
    alloc: Global,
    input: &Input<'_>,
    at: usize,
) -> Result<((Option<Text>, usize), usize), Stop>
    ensures { Gives (tokens input.now) result (read (reads levels) spec.left_head (drop at (tokens input.now))) }
{
    match named_head(alloc, input, at) {
        Err(Stop::Absent) => {}
        found => return found,
    }
    match numbered_head(alloc, input, at) {
        Err(Stop::Absent) => {}
        found => return found,
    }
    plain_head(alloc, input, at)
}

#[tactic(auto, unfolding(crate::specs::LeftUnits::carried_words))]
fn carried_words() -> &'static [&'static str]
    ensures { map (λ text. text.now) result.now ≡ spec.carried_words }
{
    &["to", "cleanup", "catch", "filter"]
}

/// A unit that is left out, up to the next token that begins a line and can begin a unit.
#[tactic(auto, unfolding(crate::specs::Reading::left_read))]
pub fn left_unit(alloc: Global, input: &Input<'_>, at: usize) -> Result<(Form, usize), Stop>
    ensures { Gives (tokens input.now) result (left_read (drop at (tokens input.now))) }
{
    let ((word, end), at) = left_head(alloc, input, at)?;
    match word {
        Some(word) => {
            let at = line_end(input, at, end, carried_words());
            Ok((Form::LeftForm { word }, at))
        }
        None => Err(Stop::Absent),
    }
}
