ghost use Rattle.std.specs.Prelude.{◌≡◌, drop};
ghost use Rattle.type_grammar.specs.Levels.{levels};
ghost use Rattle.type_grammar.specs.Reading.{reads};
ghost use Rattle.unit_grammar.specs.Attachments.{meta_kind, meta_node};
ghost use Rattle.unit_grammar.specs.Readers.{past, read};
ghost use Rattle.unit_grammar.specs.Seeing.{Gives, Passes, seen_piece, tokens};
ghost use Rattle.unit_grammar.specs.Signs.{passes};
ghost use Rattle.word_grammar.specs.Attached as spec;

use ir_lex::Kind;
use ir_values::Attach;
use ltt_base::List;
use std::alloc::Global;
use unit_grammar as grammar;
use unit_grammar::{Input, Seen, Stop, is_kind, is_number, mark, meta_kind, node};

/// One attachment of a head, `!KIND !N`.
#[tactic(auto, unfolding(crate::specs::Attached::head_attach))]
pub fn head_attach(alloc: Global, input: &Input<'_>, at: usize) -> Result<(Attach, usize), Stop>
    ensures { Gives (tokens input.now) result (read (reads levels) spec.head_attach (drop at (tokens input.now))) }
{
    let (kind, at) = meta_kind(alloc, input, at)?;
    let (node, at) = node(alloc, input, at)?;
    Ok((Attach { kind, node }, at))
}

/// The attachments of a head, `!KIND !N` each, as many as stand there; there may be none.
///
/// Source: LLVM Language Reference, "Metadata". Differs: the node is told by its number.
#[tactic(auto, unfolding(crate::specs::Attached::head_attachments))]
pub fn head_attachments(
    alloc: Global,
    input: &Input<'_>,
    at: usize,
) -> Result<(List<Attach>, usize), Stop>
    ensures { Gives (tokens input.now) result (read (reads levels) spec.head_attachments (drop at (tokens input.now))) }
{
    let mut list = List::new(alloc);
    let mut at = at;
    for turn in 0..input.left(at) {
        match head_attach(alloc, input, at) {
            Ok((item, behind)) => {
                list.add(item)?;
                at = behind;
            }
            Err(Stop::Absent) => return Ok((list, at)),
            Err(Stop::Deep) => return Err(Stop::Deep),
            Err(Stop::Memory) => return Err(Stop::Memory),
        }
    }
    Ok((list, at))
}

/// The attachments of a variable, `, !KIND !N` each, as many as stand there; there may be none.
#[tactic(auto, unfolding(crate::specs::Attached::attachments, crate::specs::Attached::attach))]
pub fn attachments(
    alloc: Global,
    input: &Input<'_>,
    at: usize,
) -> Result<(List<Attach>, usize), Stop>
    ensures { Gives (tokens input.now) result (read (reads levels) spec.attachments (drop at (tokens input.now))) }
{
    grammar::attachments(alloc, input, at)
}

fn is_meta_kind(seen: &Seen<'_>) -> bool
    ensures { result ≡ passes meta_kind (seen_piece seen.now) }
{
    if !is_kind(seen, Kind::Meta) {
        return false;
    }
    !is_number(seen, Kind::Meta, b'!')
}

fn pass_meta_kind(input: &Input<'_>, at: usize) -> Result<usize, Stop>
    ensures { Passes (tokens input.now) result (past meta_kind (drop at (tokens input.now))) }
{
    match input.at(at) {
        Some(seen) => {
            if is_meta_kind(&seen) {
                Ok(at + 1)
            } else {
                Err(Stop::Absent)
            }
        }
        None => Err(Stop::Absent),
    }
}

fn pass_node(input: &Input<'_>, at: usize) -> Result<usize, Stop>
    ensures { Passes (tokens input.now) result (past meta_node (drop at (tokens input.now))) }
{
    match input.at(at) {
        Some(seen) => {
            if is_number(&seen, Kind::Meta, b'!') {
                Ok(at + 1)
            } else {
                Err(Stop::Absent)
            }
        }
        None => Err(Stop::Absent),
    }
}

#[tactic(auto, unfolding(crate::specs::Attached::dropped_attach))]
fn dropped_attach(input: &Input<'_>, at: usize) -> Result<usize, Stop>
    ensures { Passes (tokens input.now) result (read (reads levels) spec.dropped_attach (drop at (tokens input.now))) }
{
    let at = mark(input, at, b",")?;
    let at = pass_meta_kind(input, at)?;
    pass_node(input, at)
}

/// The attachments of an instruction, as many as stand there; the answer is the place behind them.
#[tactic(auto, unfolding(crate::specs::Attached::dropped_attachments))]
pub fn dropped_attachments(input: &Input<'_>, at: usize) -> Result<usize, Stop>
    ensures { Passes (tokens input.now) result (read (reads levels) spec.dropped_attachments (drop at (tokens input.now))) }
{
    let mut at = at;
    for turn in 0..input.left(at) {
        match dropped_attach(input, at) {
            Ok(behind) => at = behind,
            Err(Stop::Absent) => return Ok(at),
            Err(Stop::Deep) => return Err(Stop::Deep),
            Err(Stop::Memory) => return Err(Stop::Memory),
        }
    }
    Ok(at)
}
