ghost use Rattle.std.specs.Prelude.{drop};
ghost use Rattle.type_grammar.specs.Levels.{levels};
ghost use Rattle.type_grammar.specs.Reading.{reads};
ghost use Rattle.unit_grammar.specs.Readers.{read};
ghost use Rattle.unit_grammar.specs.Seeing.{Gives, tokens};
ghost use Rattle.word_grammar.specs.Linkage as spec;

use crate::words::{linkage_words, other_linkage_words};
use ltt_base::Text;
use std::alloc::Global;
use unit_grammar::{Input, Stop, word_of};

/// The linkage that stands at a place, if one does: its word.
///
/// Source: LLVM Language Reference, "Linkage Types". Differs: what docs/language.md leaves out is read too.
#[tactic(auto, unfolding(crate::specs::Linkage::maybe_linkage, crate::specs::Linkage::linkage))]
pub fn maybe_linkage(
    alloc: Global,
    input: &Input<'_>,
    at: usize,
) -> Result<(Option<Text>, usize), Stop>
    ensures { Gives (tokens input.now) result (read (reads levels) spec.maybe_linkage (drop at (tokens input.now))) }
{
    match word_of(input, at, linkage_words()) {
        Ok((seen, behind)) => {
            let text = Text::copy(alloc, seen.bytes)?;
            Ok((Some(text), behind))
        }
        Err(Stop::Absent) => Ok((None, at)),
        Err(Stop::Deep) => Err(Stop::Deep),
        Err(Stop::Memory) => Err(Stop::Memory),
    }
}

/// The linkage but `external` that stands at a place, if one does: its word.
#[tactic(auto, unfolding(crate::specs::Linkage::maybe_other_linkage, crate::specs::Linkage::other_linkage))]
pub fn maybe_other_linkage(
    alloc: Global,
    input: &Input<'_>,
    at: usize,
) -> Result<(Option<Text>, usize), Stop>
    ensures { Gives (tokens input.now) result (read (reads levels) spec.maybe_other_linkage (drop at (tokens input.now))) }
{
    match word_of(input, at, other_linkage_words()) {
        Ok((seen, behind)) => {
            let text = Text::copy(alloc, seen.bytes)?;
            Ok((Some(text), behind))
        }
        Err(Stop::Absent) => Ok((None, at)),
        Err(Stop::Deep) => Err(Stop::Deep),
        Err(Stop::Memory) => Err(Stop::Memory),
    }
}
