ghost use Rattle.std.specs.Prelude.{drop};
ghost use Rattle.module_grammar.specs.Reading.{entry_read};
ghost use Rattle.module_grammar.specs.Summaries as spec;
ghost use Rattle.type_grammar.specs.Levels.{levels};
ghost use Rattle.type_grammar.specs.Reading.{reads};
ghost use Rattle.unit_grammar.specs.Readers.{read};
ghost use Rattle.unit_grammar.specs.Seeing.{Gives, tokens};

use crate::lines::line_end;
use crate::tokens::mark_end;
use ir_lex::Kind;
use ir_values::Form;
use ltt_base::Text;
use std::alloc::Global;
use unit_grammar::{Input, Stop, of_kind, without_first};

#[tactic(auto, unfolding(crate::specs::Summaries::entry_head))]
fn entry_head(alloc: Global, input: &Input<'_>, at: usize) -> Result<((Text, usize), usize), Stop>
    ensures { Gives (tokens input.now) result (read (reads levels) spec.entry_head (drop at (tokens input.now))) }
{
    let (seen, at) = of_kind(input, at, Kind::SummaryNumber)?;
    let (end, at) = mark_end(input, at, b"=")?;
    let number = Text::copy(alloc, without_first(seen.bytes))?;
    Ok(((number, end), at))
}

/// An entry of a module's summary, to the end of its line.
#[tactic(auto, unfolding(crate::specs::Reading::entry_read))]
pub fn entry(alloc: Global, input: &Input<'_>, at: usize) -> Result<(Form, usize), Stop>
    ensures { Gives (tokens input.now) result (entry_read (drop at (tokens input.now))) }
{
    let ((number, end), at) = entry_head(alloc, input, at)?;
    let at = line_end(input, at, end, &[]);
    Ok((Form::SummaryForm { number }, at))
}
