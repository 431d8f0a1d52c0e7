ghost use Rattle.std.specs.Prelude.{◌≡◌, [], ◌∷◌, ◌++◌, IfOk, List, map, drop, ℕ};
ghost use Rattle.head_grammar.specs.Extras as spec;
ghost use Rattle.type_grammar.specs.Levels.{levels};
ghost use Rattle.type_grammar.specs.Reading.{reads};
ghost use Rattle.unit_grammar.specs.Grammar.{◌⋆◌, ◌or◌, mapped};
ghost use Rattle.unit_grammar.specs.Readers.{read};
ghost use Rattle.unit_grammar.specs.Seeing.{Gives, tokens};
ghost use Rattle.word_grammar.specs.Places as places;

use crate::attached::{Attached, Gathered};
use ir_lex::Kind;
use ltt_base::{List, Memory, Text};
use std::alloc::Global;
use type_grammar::{read_constant, read_type};
use unit_grammar::{Input, Stop, pass_kind, word_of};
use word_grammar::{comdat, function_run, head_attach, placed, section};

#[tactic(auto, unfolding(crate::specs::Extras::constant_words))]
fn constant_words() -> &'static [&'static str]
    ensures { map (λ text. text.now) result.now ≡ spec.constant_words }
{
    &["personality", "prefix", "prologue"]
}

#[tactic(auto, unfolding(crate::specs::Extras::with_constant))]
fn with_constant(alloc: Global, input: &Input<'_>, at: usize) -> Result<(Text, usize), Stop>
    ensures { Gives (tokens input.now) result (read (reads levels) spec.with_constant (drop at (tokens input.now))) }
{
    let (seen, at) = word_of(input, at, constant_words())?;
    let (_ty, at) = read_type(alloc, input, at)?;
    let (_constant, at) = read_constant(alloc, input, at)?;
    let text = Text::copy(alloc, seen.bytes)?;
    Ok((text, at))
}

#[tactic(auto, unfolding(crate::specs::Extras::collector))]
fn collector(alloc: Global, input: &Input<'_>, at: usize) -> Result<(Text, usize), Stop>
    ensures { Gives (tokens input.now) result (read (reads levels) spec.collector (drop at (tokens input.now))) }
{
    let (seen, at) = word_of(input, at, &["gc"])?;
    let at = pass_kind(input, at, Kind::Quoted)?;
    let text = Text::copy(alloc, seen.bytes)?;
    Ok((text, at))
}

fn one_extra(alloc: Global, input: &Input<'_>, at: usize) -> Result<(Text, usize), Stop>
    ensures { Gives (tokens input.now) result
        (read (reads levels) (spec.with_constant or spec.collector) (drop at (tokens input.now))) }
{
    match with_constant(alloc, input, at) {
        Err(Stop::Absent) => {}
        found => return found,
    }
    collector(alloc, input, at)
}

#[tactic(auto, unfolding(crate::specs::Extras::extra))]
fn extra(alloc: Global, input: &Input<'_>, at: usize) -> Result<(Text, usize), Stop>
    ensures { Gives (tokens input.now) result (read (reads levels) spec.extra (drop at (tokens input.now))) }
{
    let (text, at) = one_extra(alloc, input, at)?;
    let at = function_run(input, at)?;
    Ok((text, at))
}

#[tactic(auto, unfolding(crate::specs::Extras::extras))]
fn extras(alloc: Global, input: &Input<'_>, at: usize) -> Result<(List<Text>, usize), Stop>
    ensures { Gives (tokens input.now) result (read (reads levels) spec.extras (drop at (tokens input.now))) }
{
    let mut list = List::new(alloc);
    let mut at = at;
    for turn in 0..input.left(at) {
        match extra(alloc, input, at) {
            Ok((item, behind)) => {
                list.add(item)?;
                at = behind;
            }
            Err(Stop::Absent) => return Ok((list, at)),
            Err(Stop::Deep) => return Err(Stop::Deep),
            Err(Stop::Memory) => return Err(Stop::Memory),
        }
    }
    Ok((list, at))
}

/// The words behind the parameters of a head, and what else stands behind them: the words that it is told by, in text order.
#[tactic(auto, unfolding(crate::specs::Extras::all_extras))]
pub fn all_extras(alloc: Global, input: &Input<'_>, at: usize) -> Result<(List<Text>, usize), Stop>
    ensures { Gives (tokens input.now) result (read (reads levels) spec.all_extras (drop at (tokens input.now))) }
{
    let at = function_run(input, at)?;
    extras(alloc, input, at)
}

fn with_section(alloc: Global, input: &Input<'_>, at: usize) -> Result<(List<Text>, usize), Stop>
    ensures { Gives (tokens input.now) result
        (read (reads levels) (mapped {A = Unit {0} × List (List ℕ)} (λ x. x.1) (places.section ⋆ spec.extras)) (drop at (tokens input.now))) }
{
    let at = section(input, at)?;
    extras(alloc, input, at)
}

#[tactic(auto, unfolding(crate::specs::Extras::at_section))]
fn at_section(alloc: Global, input: &Input<'_>, at: usize) -> Result<(List<Text>, usize), Stop>
    ensures { Gives (tokens input.now) result (read (reads levels) spec.at_section (drop at (tokens input.now))) }
{
    match with_section(alloc, input, at) {
        Ok(found) => Ok(found),
        Err(Stop::Absent) => Ok((List::new(alloc), at)),
        Err(Stop::Deep) => Err(Stop::Deep),
        Err(Stop::Memory) => Err(Stop::Memory),
    }
}

fn with_comdat(alloc: Global, input: &Input<'_>, at: usize) -> Result<(List<Text>, usize), Stop>
    ensures { Gives (tokens input.now) result
        (read (reads levels) (mapped {A = Unit {0} × List (List ℕ)} (λ x. x.1) (places.comdat ⋆ spec.extras)) (drop at (tokens input.now))) }
{
    let at = comdat(input, at)?;
    extras(alloc, input, at)
}

#[tactic(auto, unfolding(crate::specs::Extras::at_comdat))]
fn at_comdat(alloc: Global, input: &Input<'_>, at: usize) -> Result<(List<Text>, usize), Stop>
    ensures { Gives (tokens input.now) result (read (reads levels) spec.at_comdat (drop at (tokens input.now))) }
{
    match with_comdat(alloc, input, at) {
        Ok(found) => Ok(found),
        Err(Stop::Absent) => Ok((List::new(alloc), at)),
        Err(Stop::Deep) => Err(Stop::Deep),
        Err(Stop::Memory) => Err(Stop::Memory),
    }
}

fn with_placed(alloc: Global, input: &Input<'_>, at: usize) -> Result<(List<Text>, usize), Stop>
    ensures { Gives (tokens input.now) result
        (read (reads levels) (mapped {A = Unit {0} × List (List ℕ)} (λ x. x.1) (places.placed ⋆ spec.extras)) (drop at (tokens input.now))) }
{
    let at = placed(input, at)?;
    extras(alloc, input, at)
}

#[tactic(auto, unfolding(crate::specs::Extras::at_alignment))]
fn at_alignment(alloc: Global, input: &Input<'_>, at: usize) -> Result<(List<Text>, usize), Stop>
    ensures { Gives (tokens input.now) result (read (reads levels) spec.at_alignment (drop at (tokens input.now))) }
{
    match with_placed(alloc, input, at) {
        Ok(found) => Ok(found),
        Err(Stop::Absent) => Ok((List::new(alloc), at)),
        Err(Stop::Deep) => Err(Stop::Deep),
        Err(Stop::Memory) => Err(Stop::Memory),
    }
}

fn joined(first: List<Text>, second: List<Text>) -> Result<List<Text>, Memory>
    ensures { IfOk result (λ list. list ≡ first ++ second) }
{
    let mut list = first;
    list.append(second)?;
    Ok(list)
}

/// All that stands behind the parameters of a definition's head, up to the attachments: the words that are kept, in text order.
#[tactic(auto, unfolding(crate::specs::Extras::put))]
pub fn put(alloc: Global, input: &Input<'_>, at: usize) -> Result<(List<Text>, usize), Stop>
    ensures { Gives (tokens input.now) result (read (reads levels) spec.put (drop at (tokens input.now))) }
{
    let (first, at) = all_extras(alloc, input, at)?;
    let (second, at) = at_section(alloc, input, at)?;
    let (third, at) = at_comdat(alloc, input, at)?;
    let (fourth, at) = at_alignment(alloc, input, at)?;
    let last = joined(third, fourth)?;
    let last = joined(second, last)?;
    let list = joined(first, last)?;
    Ok((list, at))
}

#[tactic(auto, unfolding(crate::specs::Extras::attached))]
fn attached(alloc: Global, input: &Input<'_>, at: usize) -> Result<(Attached, usize), Stop>
    ensures { Gives (tokens input.now) result (read (reads levels) spec.attached (drop at (tokens input.now))) }
{
    let (attach, at) = head_attach(alloc, input, at)?;
    let (left, at) = extras(alloc, input, at)?;
    Ok((Attached { attach, left }, at))
}

fn with_attached(all: Gathered, item: Attached) -> Result<Gathered, Memory>
    ensures attached { IfOk result (λ longer. longer.attached ≡ all.attached ++ item.attach ∷ []) }
    ensures left { IfOk result (λ longer. longer.left ≡ all.left ++ item.left) }
{
    let mut attached = all.attached;
    let mut left = all.left;
    attached.add(item.attach)?;
    left.append(item.left)?;
    Ok(Gathered { attached, left })
}

/// The attachments of a definition's head, and the words that are kept of what stands between and behind them.
#[tactic(auto, unfolding(crate::specs::Extras::all_attached))]
pub fn all_attached(alloc: Global, input: &Input<'_>, at: usize) -> Result<(Gathered, usize), Stop>
    ensures { Gives (tokens input.now) result (read (reads levels) spec.all_attached (drop at (tokens input.now))) }
{
    let mut all = Gathered {
        attached: List::new(alloc),
        left: List::new(alloc),
    };
    let mut at = at;
    for turn in 0..input.left(at) {
        match attached(alloc, input, at) {
            Ok((item, behind)) => {
                all = with_attached(all, item)?;
                at = behind;
            }
            Err(Stop::Absent) => return Ok((all, at)),
            Err(Stop::Deep) => return Err(Stop::Deep),
            Err(Stop::Memory) => return Err(Stop::Memory),
        }
    }
    Ok((all, at))
}
