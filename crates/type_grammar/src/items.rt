ghost use Rattle.std.specs.Prelude.{◌≡◌, IfOk, codes, drop, length};
ghost use Rattle.ir_lex.specs.declared.token.Kind.{Kind};
ghost use Rattle.ir_values.specs.declared.units.MetaItem.{MetaItem};
ghost use Rattle.type_grammar.specs.Items as spec;
ghost use Rattle.type_grammar.specs.Names.{an_item};
ghost use Rattle.type_grammar.specs.Reading.{reads};
ghost use Rattle.unit_grammar.specs.Attachments.{meta_node};
ghost use Rattle.unit_grammar.specs.Readers.{list_read, many_read, read, sign_read, token_read};
ghost use Rattle.unit_grammar.specs.Seeing.{Gives, tokens};
ghost use Rattle.unit_grammar.specs.Signs as signs;

use crate::bare::{Bare, at_type};
use crate::constants::constant;
use crate::types::ty;
use crate::words::begins_item;
use ir_lex::Kind;
use ir_values::{MetaItem, Ty};
use ltt_base::{List, Memory};
use std::alloc::Global;
use unit_grammar::{Input, Stop, mark, node, of_kind, one, unquoted, without_first, word};

fn node_item(alloc: Global, input: &Input<'_>, at: usize) -> Result<(MetaItem, usize), Stop>
    ensures { Gives (tokens input.now) result
        (token_read meta_node (λ t. MetaItem.Node (signs.name Kind.Meta t)) (drop at (tokens input.now))) }
{
    let (node, at) = node(alloc, input, at)?;
    Ok((MetaItem::Node(node), at))
}

fn word_item(alloc: Global, input: &Input<'_>, at: usize) -> Result<(MetaItem, usize), Stop>
    ensures { Gives (tokens input.now) result
        (token_read (signs.of_kind Kind.MetaText) (λ t. MetaItem.Word (signs.name Kind.MetaText t)) (drop at (tokens input.now))) }
{
    let (seen, at) = of_kind(input, at, Kind::MetaText)?;
    let word = unquoted(alloc, without_first(seen.bytes))?;
    Ok((MetaItem::Word(word), at))
}

fn null_item(input: &Input<'_>, at: usize) -> Result<(MetaItem, usize), Stop>
    ensures { Gives (tokens input.now) result
        (token_read (signs.word (codes "null")) (λ _. MetaItem.Null) (drop at (tokens input.now))) }
{
    let at = word(input, at, b"null")?;
    Ok((MetaItem::Null, at))
}

fn constant_of(alloc: Global, ty: Ty, bare: Bare) -> Result<MetaItem, Memory>
    ensures { IfOk result (λ item. item ≡ spec.constant_of (ty, bare)) }
{
    let constant = at_type(alloc, &ty, bare)?;
    Ok(MetaItem::Const(ty, constant))
}

#[tactic(auto, unfolding(crate::specs::Items::constant_item))]
fn constant_item(
    alloc: Global,
    levels: usize,
    input: &Input<'_>,
    at: usize,
) -> Result<(MetaItem, usize), Stop>
    ensures { Gives (tokens input.now) result (read (reads levels) spec.constant_item (drop at (tokens input.now))) }
{
    let (ty, at) = ty(alloc, levels, input, at)?;
    let (bare, at) = constant(alloc, levels, input, at)?;
    Ok((constant_of(alloc, ty, bare)?, at))
}

#[cycle(items)]
#[tactic(auto, unfolding(crate::specs::Items::nested))]
fn nested(
    alloc: Global,
    levels: usize,
    input: &Input<'_>,
    at: usize,
) -> Result<(MetaItem, usize), Stop>
    ensures { Gives (tokens input.now) result (read (reads levels) spec.nested (drop at (tokens input.now))) }
{
    let at = mark(input, at, b"!")?;
    let at = mark(input, at, b"{")?;
    let (items, at) = item_list(alloc, levels, input, at)?;
    let at = mark(input, at, b"}")?;
    Ok((MetaItem::Nested(items), at))
}

#[cycle(items)]
fn next_item(
    alloc: Global,
    levels: usize,
    input: &Input<'_>,
    at: usize,
) -> Result<(MetaItem, usize), Stop>
    ensures { Gives (tokens input.now) result (sign_read (signs.mark (codes ",")) (reads levels an_item) (drop at (tokens input.now))) }
{
    let at = mark(input, at, b",")?;
    item(alloc, levels, input, at)
}

#[cycle(items)]
fn more_items(
    alloc: Global,
    levels: usize,
    input: &Input<'_>,
    at: usize,
    given: List<MetaItem>,
) -> Result<(List<MetaItem>, usize), Stop>
    ensures { Gives (tokens input.now) result
        (many_read (length (drop at (tokens input.now))) (sign_read (signs.mark (codes ",")) (reads levels an_item)) given (drop at (tokens input.now))) }
{
    let mut list = given;
    let mut at = at;
    for turn in 0..input.left(at) {
        match next_item(alloc, levels, input, at) {
            Ok((item, behind)) => {
                list.add(item)?;
                at = behind;
            }
            Err(Stop::Absent) => return Ok((list, at)),
            Err(Stop::Deep) => return Err(Stop::Deep),
            Err(Stop::Memory) => return Err(Stop::Memory),
        }
    }
    Ok((list, at))
}

/// Any number of parts with commas between them, where so many levels may be opened.
#[cycle(items)]
pub fn listed_items(
    alloc: Global,
    levels: usize,
    input: &Input<'_>,
    at: usize,
) -> Result<(List<MetaItem>, usize), Stop>
    ensures { Gives (tokens input.now) result (list_read (signs.mark (codes ",")) (reads levels an_item) (drop at (tokens input.now))) }
{
    match item(alloc, levels, input, at) {
        Ok((first, behind)) => {
            let list = one(alloc, first)?;
            more_items(alloc, levels, input, behind, list)
        }
        Err(Stop::Absent) => Ok((List::new(alloc), at)),
        Err(Stop::Deep) => Err(Stop::Deep),
        Err(Stop::Memory) => Err(Stop::Memory),
    }
}

#[cycle(items)]
fn item_list(
    alloc: Global,
    levels: usize,
    input: &Input<'_>,
    at: usize,
) -> Result<(List<MetaItem>, usize), Stop>
    ensures { Gives (tokens input.now) result (read (reads levels) spec.item_list (drop at (tokens input.now))) }
{
    listed_items(alloc, levels, input, at)
}

#[cycle(items)]
#[tactic(auto, unfolding(crate::specs::Items::item_body, crate::specs::Items::node_item, crate::specs::Items::word_item, crate::specs::Items::null_item))]
fn item_body(
    alloc: Global,
    levels: usize,
    input: &Input<'_>,
    at: usize,
) -> Result<(MetaItem, usize), Stop>
    ensures { Gives (tokens input.now) result (read (reads levels) spec.item_body (drop at (tokens input.now))) }
{
    match node_item(alloc, input, at) {
        Err(Stop::Absent) => {}
        found => return found,
    }
    match word_item(alloc, input, at) {
        Err(Stop::Absent) => {}
        found => return found,
    }
    match null_item(input, at) {
        Err(Stop::Absent) => {}
        found => return found,
    }
    match nested(alloc, levels, input, at) {
        Err(Stop::Absent) => {}
        found => return found,
    }
    constant_item(alloc, levels, input, at)
}

/// The part of a metadata node that begins at a place, where so many levels may be opened.
#[cycle(items)]
pub fn item(
    alloc: Global,
    levels: usize,
    input: &Input<'_>,
    at: usize,
) -> Result<(MetaItem, usize), Stop>
    ensures { Gives (tokens input.now) result (reads levels an_item (drop at (tokens input.now))) }
{
    if levels == 0 {
        if begins_item(input, at) {
            return Err(Stop::Deep);
        }
        return Err(Stop::Absent);
    }
    item_body(alloc, levels - 1, input, at)
}
