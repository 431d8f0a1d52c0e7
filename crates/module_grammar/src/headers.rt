ghost use Rattle.std.specs.Prelude.{codes, drop};
ghost use Rattle.ir_lex.specs.declared.token.Kind.{Kind};
ghost use Rattle.module_grammar.specs.Headers as spec;
ghost use Rattle.type_grammar.specs.Levels.{levels};
ghost use Rattle.type_grammar.specs.Reading.{reads};
ghost use Rattle.unit_grammar.specs.Readers.{read, sign_read, token_read};
ghost use Rattle.unit_grammar.specs.Seeing.{Gives, tokens};
ghost use Rattle.unit_grammar.specs.Signs as signs;

use ir_lex::Kind;
use ir_values::{Form, HeaderKind};
use ltt_base::Text;
use std::alloc::Global;
use unit_grammar::{Input, Stop, mark, of_kind, unquoted, word};

fn value(alloc: Global, input: &Input<'_>, at: usize) -> Result<(Text, usize), Stop>
    ensures { Gives (tokens input.now) result
        (sign_read (signs.mark (codes "=")) (token_read (signs.of_kind Kind.Quoted) (signs.name Kind.Quoted)) (drop at (tokens input.now))) }
{
    let at = mark(input, at, b"=")?;
    let (seen, at) = of_kind(input, at, Kind::Quoted)?;
    let text = unquoted(alloc, seen.bytes)?;
    Ok((text, at))
}

#[tactic(auto, unfolding(crate::specs::Headers::source, crate::specs::Headers::value))]
fn source(alloc: Global, input: &Input<'_>, at: usize) -> Result<(Form, usize), Stop>
    ensures { Gives (tokens input.now) result (read (reads levels) spec.source (drop at (tokens input.now))) }
{
    let at = word(input, at, b"source_filename")?;
    let (value, at) = value(alloc, input, at)?;
    let kind = HeaderKind::Source;
    Ok((Form::HeaderForm { kind, value }, at))
}

#[tactic(auto, unfolding(crate::specs::Headers::layout, crate::specs::Headers::value))]
fn layout(alloc: Global, input: &Input<'_>, at: usize) -> Result<(Form, usize), Stop>
    ensures { Gives (tokens input.now) result (read (reads levels) spec.layout (drop at (tokens input.now))) }
{
    let at = word(input, at, b"datalayout")?;
    let (value, at) = value(alloc, input, at)?;
    let kind = HeaderKind::Layout;
    Ok((Form::HeaderForm { kind, value }, at))
}

#[tactic(auto, unfolding(crate::specs::Headers::triple, crate::specs::Headers::value))]
fn triple(alloc: Global, input: &Input<'_>, at: usize) -> Result<(Form, usize), Stop>
    ensures { Gives (tokens input.now) result (read (reads levels) spec.triple (drop at (tokens input.now))) }
{
    let at = word(input, at, b"triple")?;
    let (value, at) = value(alloc, input, at)?;
    let kind = HeaderKind::Triple;
    Ok((Form::HeaderForm { kind, value }, at))
}

/// A line of a module's head.
#[tactic(auto, unfolding(crate::specs::Headers::header))]
pub fn header(alloc: Global, input: &Input<'_>, at: usize) -> Result<(Form, usize), Stop>
    ensures { Gives (tokens input.now) result (read (reads levels) spec.header (drop at (tokens input.now))) }
{
    match source(alloc, input, at) {
        Err(Stop::Absent) => {}
        found => return found,
    }
    let at = word(input, at, b"target")?;
    match layout(alloc, input, at) {
        Err(Stop::Absent) => {}
        found => return found,
    }
    triple(alloc, input, at)
}
