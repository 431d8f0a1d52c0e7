// The type entries and the visibility that attachments give.
ghost use Rattle.std.specs.Prelude.{◌≡◌, ◌++◌, IfOk, OnOk};
ghost use Rattle.std.specs.Option.{option_copied};
ghost use Rattle.ir_values.specs.declared.units.MetaItem.{out-MetaItem};
ghost use Rattle.check_items.specs.Entries as spec;

use crate::attached::{is_type, is_visibility};
use crate::nodes::{id_of, lone_number, node_items, offset_of};
use check_names::Context;
use ir_values::{Attach, Entry, MetaItem, TypeId};
use kept_parts::node_number;
use ltt_base::{Copied, List, Memory};
use std::alloc::Global;

fn item_id(alloc: Global, file: u32, item: &MetaItem) -> Result<Option<TypeId>, Memory>
    ensures { IfOk result (λ id. id ≡ spec.item_id file (out-MetaItem item.now)) }
{
    match item {
        MetaItem::Word(text) => Ok(Some(TypeId::Name(text.copied(alloc)?))),
        MetaItem::Node(digits) => Ok(Some(TypeId::Node(file, node_number(digits.bytes())))),
        _ => Ok(None),
    }
}

fn some_id(alloc: Global, file: u32, item: Option<&MetaItem>) -> Result<Option<TypeId>, Memory>
    ensures { IfOk result (λ id. id ≡ spec.some_id file (option_copied item.entry)) }
{
    match item {
        Some(item) => item_id(alloc, file, item),
        None => Ok(None),
    }
}

fn add_entry(
    entries: &mut List<Entry>,
    offset: Option<u64>,
    id: Option<TypeId>,
) -> Result<(), Memory>
    ensures { OnOk result (entries.new ≡ entries.old ++ spec.entry_with offset id) }
{
    match (offset, id) {
        (Some(offset), Some(id)) => entries.add(Entry { offset, id }),
        _ => Ok(()),
    }
}

fn add_entry_in(
    alloc: Global,
    file: u32,
    entries: &mut List<Entry>,
    items: Option<&[MetaItem]>,
) -> Result<(), Memory>
    ensures { OnOk result (entries.new ≡ entries.old ++ spec.entry_in file (option_copied items.entry)) }
{
    match items {
        Some(items) => {
            let id = some_id(alloc, file, id_of(items))?;
            add_entry(entries, offset_of(items), id)
        }
        None => Ok(()),
    }
}

fn add_entry_of(
    alloc: Global,
    context: &Context<'_>,
    file: u32,
    entries: &mut List<Entry>,
    attach: &Attach,
) -> Result<(), Memory>
    ensures { OnOk result (entries.new ≡ entries.old ++ spec.entry_of context.now.units file attach.now) }
{
    if is_type(attach) {
        let items = node_items(context, attach.node.bytes());
        add_entry_in(alloc, file, entries, items)
    } else {
        Ok(())
    }
}

/// The type entries of attachments, in the order of the text. A node that is an identifier belongs to the file of this number.
///
/// Source: LLVM, "Type Metadata".
#[tactic(auto, unfolding(crate::specs::Entries::entries_of))]
pub fn entries_of(
    alloc: Global,
    context: &Context<'_>,
    file: u32,
    attached: &[Attach],
) -> Result<List<Entry>, Memory>
    ensures { IfOk result (λ entries. entries ≡ spec.entries_of context.now.units file attached.now) }
{
    let mut entries = List::new(alloc);
    for attach in attached {
        add_entry_of(alloc, context, file, &mut entries, attach)?;
    }
    Ok(entries)
}

fn small(level: Option<u64>) -> u8
    ensures { result ≡ spec.small level }
{
    match level {
        Some(level) => u8::try_from(level).unwrap_or(0),
        None => 0,
    }
}

fn level_in(items: Option<&[MetaItem]>) -> u8
    ensures { result ≡ spec.level_in (option_copied items.entry) }
{
    match items {
        Some(items) => small(lone_number(items)),
        None => 0,
    }
}

/// The first visibility of attachments. Without one it is 0.
///
/// Source: LLVM, "Type Metadata".
#[tactic(auto, unfolding(crate::specs::Entries::visibility_of))]
pub fn visibility_of(context: &Context<'_>, attached: &[Attach]) -> u8
    ensures { result ≡ spec.visibility_of context.now.units attached.now }
{
    for attach in attached {
        if is_visibility(attach) {
            return level_in(node_items(context, attach.node.bytes()));
        }
    }
    0
}
