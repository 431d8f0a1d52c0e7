ghost use Rattle.std.specs.Prelude.{drop};
ghost use Rattle.unit_grammar.specs.Answers.{Tells};
ghost use Rattle.unit_grammar.specs.Attachments as spec;
ghost use Rattle.unit_grammar.specs.Plain.{IsPlain, plain_read};
ghost use Rattle.unit_grammar.specs.Readers.{token_read};
ghost use Rattle.unit_grammar.specs.Seeing.{Gives, tokens};
ghost use Rattle.unit_grammar.specs.Signs.{name};

use crate::bytes::are_digits;
use crate::input::Input;
use crate::stop::Stop;
use crate::tokens::{mark, meta_kind, node};
use ir_values::Attach;
use ltt_base::List;
use std::alloc::Global;

#[tactic(auto, unfolding(crate::specs::Attachments::attach))]
fn attach(alloc: Global, input: &Input<'_>, at: usize) -> Result<(Attach, usize), Stop>
    ensures { Gives (tokens input.now) result (plain_read spec.attach (drop at (tokens input.now))) }
{
    let at = mark(input, at, b",")?;
    let (kind, at) = meta_kind(alloc, input, at)?;
    let (node, at) = node(alloc, input, at)?;
    Ok((Attach { kind, node }, at))
}

#[tactic(auto, unfolding(crate::specs::Attachments::attachments))]
fn all_attached(alloc: Global, input: &Input<'_>, at: usize) -> Result<(List<Attach>, usize), Stop>
    ensures { Gives (tokens input.now) result (plain_read spec.attachments (drop at (tokens input.now))) }
{
    let mut list = List::new(alloc);
    let mut at = at;
    for turn in 0..input.left(at) {
        match attach(alloc, input, at) {
            Ok((item, behind)) => {
                list.add(item)?;
                at = behind;
            }
            Err(Stop::Absent) => return Ok((list, at)),
            Err(Stop::Deep) => return Err(Stop::Deep),
            Err(Stop::Memory) => return Err(Stop::Memory),
        }
    }
    Ok((list, at))
}

/// The attachments that begin at a place, as many as stand there; there may be none.
///
/// Source: LLVM Language Reference, "Metadata". Differs: the node is told by its number.
pub fn attachments(
    alloc: Global,
    input: &Input<'_>,
    at: usize,
) -> Result<(List<Attach>, usize), Stop>
    ensures gives { Gives (tokens input.now) result (plain_read spec.attachments (drop at (tokens input.now))) }
    ensures longest { Tells (IsPlain spec.attachments) (IsPlain spec.attachments) (λ _. ⊥) (tokens input.now) (drop at (tokens input.now)) result }
{
    all_attached(alloc, input, at)
}
