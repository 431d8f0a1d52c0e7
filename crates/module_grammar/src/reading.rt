ghost use Rattle.std.specs.Prelude.{drop};
ghost use Rattle.module_grammar.specs.Headers.{header};
ghost use Rattle.module_grammar.specs.Items.{attributes, close, comdat, label, type_body};
ghost use Rattle.module_grammar.specs.LeftUnits.{IsLeftUnit};
ghost use Rattle.module_grammar.specs.Metadata.{metadata};
ghost use Rattle.module_grammar.specs.Reading.{entry_read, left_read};
ghost use Rattle.module_grammar.specs.Summaries.{IsEntry};
ghost use Rattle.module_grammar.specs.Tables.{table};
ghost use Rattle.module_grammar.specs.Texts.{IsAnyForm, IsForm, OpensForm};
ghost use Rattle.type_grammar.specs.Levels.{IsAny, IsAt, levels};
ghost use Rattle.type_grammar.specs.Reading.{reads};
ghost use Rattle.unit_grammar.specs.Answers.{Tells};
ghost use Rattle.unit_grammar.specs.Readers.{read};
ghost use Rattle.unit_grammar.specs.Seeing.{Gives, tokens};

use crate::headers::header;
use crate::items::{attributes, close, comdat, label, type_body};
use crate::left_units::left_unit;
use crate::metadata::metadata;
use crate::summaries::entry;
use crate::tables::table;
use ir_values::Form;
use std::alloc::Global;
use unit_grammar::{Input, Stop};

/// A line of a module's head that begins at a place, and the place behind it.
///
/// Source: LLVM Language Reference, "Source Filename", "Data Layout" and "Target Triple".
pub fn read_header(alloc: Global, input: &Input<'_>, at: usize) -> Result<(Form, usize), Stop>
    ensures gives { Gives (tokens input.now) result (read (reads levels) header (drop at (tokens input.now))) }
    ensures longest { Tells (IsForm header) (IsAnyForm header) (OpensForm header) (tokens input.now) (drop at (tokens input.now)) result }
{
    header(alloc, input, at)
}

/// What stands behind the name of a type and its `=`, and the place behind that: the longest text. The form's name is empty.
///
/// Source: LLVM Language Reference, "Structure Types" and "Opaque Structure Types". Differs: any type may have a name.
pub fn read_type_body(alloc: Global, input: &Input<'_>, at: usize) -> Result<(Form, usize), Stop>
    ensures gives { Gives (tokens input.now) result (read (reads levels) type_body (drop at (tokens input.now))) }
    ensures longest { Tells (IsForm type_body) (IsAnyForm type_body) (OpensForm type_body) (tokens input.now) (drop at (tokens input.now)) result }
{
    type_body(alloc, input, at)
}

/// A comdat that begins at a place, and the place behind it.
///
/// Source: LLVM Language Reference, "Comdats". Differs: which of the five words stands there isn't kept.
pub fn read_comdat(alloc: Global, input: &Input<'_>, at: usize) -> Result<(Form, usize), Stop>
    ensures gives { Gives (tokens input.now) result (read (reads levels) comdat (drop at (tokens input.now))) }
    ensures longest { Tells (IsForm comdat) (IsAnyForm comdat) (OpensForm comdat) (tokens input.now) (drop at (tokens input.now)) result }
{
    comdat(alloc, input, at)
}

/// A group of attributes that begins at a place, and the place behind it. Only its braces are looked at.
///
/// Source: LLVM Language Reference, "Attribute Groups".
pub fn read_attributes(alloc: Global, input: &Input<'_>, at: usize) -> Result<(Form, usize), Stop>
    ensures gives { Gives (tokens input.now) result (read (reads levels) attributes (drop at (tokens input.now))) }
    ensures longest { Tells (IsForm attributes) (IsAnyForm attributes) (OpensForm attributes) (tokens input.now) (drop at (tokens input.now)) result }
{
    attributes(alloc, input, at)
}

/// A label that stands at a place, and the place behind it.
///
/// Source: LLVM Language Reference, "Functions".
pub fn read_label(alloc: Global, input: &Input<'_>, at: usize) -> Result<(Form, usize), Stop>
    ensures gives { Gives (tokens input.now) result (read (reads levels) label (drop at (tokens input.now))) }
    ensures longest { Tells (IsForm label) (IsAnyForm label) (OpensForm label) (tokens input.now) (drop at (tokens input.now)) result }
{
    label(alloc, input, at)
}

/// The end of a function that stands at a place, and the place behind it.
///
/// Source: LLVM Language Reference, "Functions".
pub fn read_close(input: &Input<'_>, at: usize) -> Result<(Form, usize), Stop>
    ensures gives { Gives (tokens input.now) result (read (reads levels) close (drop at (tokens input.now))) }
    ensures longest { Tells (IsForm close) (IsAnyForm close) (OpensForm close) (tokens input.now) (drop at (tokens input.now)) result }
{
    close(input, at)
}

/// A node of metadata that begins at a place, and the place behind it.
///
/// Source: LLVM Language Reference, "Named Metadata" and "Metadata Nodes and Metadata Strings".
pub fn read_metadata(alloc: Global, input: &Input<'_>, at: usize) -> Result<(Form, usize), Stop>
    ensures gives { Gives (tokens input.now) result (read (reads levels) metadata (drop at (tokens input.now))) }
    ensures longest { Tells (IsForm metadata) (IsAnyForm metadata) (OpensForm metadata) (tokens input.now) (drop at (tokens input.now)) result }
{
    metadata(alloc, input, at)
}

/// A jump table that begins at a place, and the place behind it.
///
/// Source: docs/language.md; LLVM has no text for a jump table.
pub fn read_table(alloc: Global, input: &Input<'_>, at: usize) -> Result<(Form, usize), Stop>
    ensures gives { Gives (tokens input.now) result (read (reads levels) table (drop at (tokens input.now))) }
    ensures longest { Tells (IsForm table) (IsAnyForm table) (OpensForm table) (tokens input.now) (drop at (tokens input.now)) result }
{
    table(alloc, input, at)
}

/// An entry of a module's summary that begins at a place, and the place of the next token that stands first on its line.
///
/// Source: LLVM Language Reference, "ThinLTO Summary". Differs: nothing is asked of what stands behind the `=`.
pub fn read_entry(alloc: Global, input: &Input<'_>, at: usize) -> Result<(Form, usize), Stop>
    ensures gives { Gives (tokens input.now) result (entry_read (drop at (tokens input.now))) }
    ensures longest { Tells (IsEntry (IsAt levels)) (IsEntry IsAny) (λ _. ⊥) (tokens input.now) (drop at (tokens input.now)) result }
{
    entry(alloc, input, at)
}

/// A unit that is left out and begins at a place, and the place behind it: that of the next token that stands first on its
/// line, but for a word that goes on with such a unit.
///
/// Source: docs/language.md, which tells what is left out.
pub fn read_left_unit(alloc: Global, input: &Input<'_>, at: usize) -> Result<(Form, usize), Stop>
    ensures gives { Gives (tokens input.now) result (left_read (drop at (tokens input.now))) }
    ensures longest { Tells (IsLeftUnit (IsAt levels)) (IsLeftUnit IsAny) (λ _. ⊥) (tokens input.now) (drop at (tokens input.now)) result }
{
    left_unit(alloc, input, at)
}
