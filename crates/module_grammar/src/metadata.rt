ghost use Rattle.std.specs.Prelude.{drop};
ghost use Rattle.module_grammar.specs.Metadata as spec;
ghost use Rattle.type_grammar.specs.Levels.{levels};
ghost use Rattle.type_grammar.specs.Reading.{reads};
ghost use Rattle.unit_grammar.specs.Readers.{read};
ghost use Rattle.unit_grammar.specs.Seeing.{Gives, tokens};

use ir_values::{Form, MetaItem};
use ltt_base::List;
use std::alloc::Global;
use type_grammar::read_own_items;
use unit_grammar::{Input, Stop, mark, meta_kind, node as node_number, word};

#[tactic(auto, unfolding(crate::specs::Metadata::node))]
fn node(alloc: Global, input: &Input<'_>, at: usize) -> Result<(List<MetaItem>, usize), Stop>
    ensures { Gives (tokens input.now) result (read (reads levels) spec.node (drop at (tokens input.now))) }
{
    let at = mark(input, at, b"!")?;
    let at = mark(input, at, b"{")?;
    let (items, at) = read_own_items(alloc, input, at)?;
    let at = mark(input, at, b"}")?;
    Ok((items, at))
}

#[tactic(auto, unfolding(crate::specs::Metadata::distinct))]
fn distinct(input: &Input<'_>, at: usize) -> Result<(bool, usize), Stop>
    ensures { Gives (tokens input.now) result (read (reads levels) spec.distinct (drop at (tokens input.now))) }
{
    match word(input, at, b"distinct") {
        Ok(behind) => Ok((true, behind)),
        Err(Stop::Absent) => Ok((false, at)),
        Err(Stop::Deep) => Err(Stop::Deep),
        Err(Stop::Memory) => Err(Stop::Memory),
    }
}

#[tactic(auto, unfolding(crate::specs::Metadata::numbered_node))]
fn numbered_node(alloc: Global, input: &Input<'_>, at: usize) -> Result<(Form, usize), Stop>
    ensures { Gives (tokens input.now) result (read (reads levels) spec.numbered_node (drop at (tokens input.now))) }
{
    let (name, at) = node_number(alloc, input, at)?;
    let at = mark(input, at, b"=")?;
    let (distinct, at) = distinct(input, at)?;
    let (items, at) = node(alloc, input, at)?;
    Ok((
        Form::MetadataForm {
            name,
            distinct,
            items,
        },
        at,
    ))
}

#[tactic(auto, unfolding(crate::specs::Metadata::named_node))]
fn named_node(alloc: Global, input: &Input<'_>, at: usize) -> Result<(Form, usize), Stop>
    ensures { Gives (tokens input.now) result (read (reads levels) spec.named_node (drop at (tokens input.now))) }
{
    let (name, at) = meta_kind(alloc, input, at)?;
    let at = mark(input, at, b"=")?;
    let (items, at) = node(alloc, input, at)?;
    Ok((
        Form::MetadataForm {
            name,
            distinct: false,
            items,
        },
        at,
    ))
}

/// A node of metadata.
#[tactic(auto, unfolding(crate::specs::Metadata::metadata))]
pub fn metadata(alloc: Global, input: &Input<'_>, at: usize) -> Result<(Form, usize), Stop>
    ensures { Gives (tokens input.now) result (read (reads levels) spec.metadata (drop at (tokens input.now))) }
{
    match numbered_node(alloc, input, at) {
        Err(Stop::Absent) => {}
        found => return found,
    }
    named_node(alloc, input, at)
}
