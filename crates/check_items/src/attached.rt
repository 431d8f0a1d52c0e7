// What is wrong with the attachments of definitions.
ghost use Rattle.std.specs.Prelude.{◌≡◌, Some, None, IfOk};
ghost use Rattle.std.specs.Option.{option_copied};
ghost use Rattle.ir_values.specs.declared.units.MetaItem.{out-MetaItem};
ghost use Rattle.check_names.specs.Flaws.{each};
ghost use Rattle.check_items.specs.Attached as spec;

use crate::known::is_known;
use crate::nodes::{id_of, is_some_id, lone_number, node_items, offset_of};
use check_names::{Context, Flaw, Space, counts, missing_flaw, use_flaw, when, worded_when};
use check_types::{Types, size};
use ir_values::{Attach, MetaItem, Ty};
use ltt_base::{Code, Memory};
use std::alloc::Global;

fn is_beyond<'a>(types: &Types<'a>, ty: Option<&'a Ty>, offset: u64) -> bool
    ensures { result ≡ spec.is_beyond types.now.units (option_copied ty.entry) offset }
{
    match ty {
        Some(ty) => size(types, ty) < offset && is_known(types, ty),
        None => offset != 0,
    }
}

fn is_no_offset<'a>(types: &Types<'a>, ty: Option<&'a Ty>, offset: Option<u64>) -> bool
    ensures { result ≡ spec.is_no_offset types.now.units (option_copied ty.entry) offset }
{
    match offset {
        Some(offset) => is_beyond(types, ty, offset),
        None => true,
    }
}

fn missing_id(alloc: Global, context: &Context<'_>, item: &MetaItem) -> Result<Option<Flaw>, Memory>
    ensures { IfOk result (λ flaw. flaw ≡ spec.missing_id context.now.units (out-MetaItem item.now)) }
{
    match item {
        MetaItem::Node(number) => missing_flaw(alloc, context, Space::Nodes, number.bytes()),
        _ => Ok(None),
    }
}

fn id_flaw(
    alloc: Global,
    context: &Context<'_>,
    item: Option<&MetaItem>,
) -> Result<Option<Flaw>, Memory>
    ensures { IfOk result (λ flaw. flaw ≡ spec.id_flaw context.now.units (option_copied item.entry)) }
{
    match item {
        Some(item) => missing_id(alloc, context, item),
        None => Ok(None),
    }
}

fn items_flaw<'a>(
    alloc: Global,
    types: &Types<'a>,
    ty: Option<&'a Ty>,
    items: &[MetaItem],
) -> Result<Option<Flaw>, Memory>
    ensures { IfOk result (λ flaw. flaw ≡ spec.items_flaw types.now.units (option_copied ty.entry) items.now) }
{
    let id = id_of(items);
    let missing = id_flaw(alloc, types.context(), id)?;
    let none = is_no_offset(types, ty, offset_of(items));
    let wrong = none || !is_some_id(types.context(), id);
    Ok(counts(missing, when(wrong, Code::E08)))
}

fn entry_flaw<'a>(
    alloc: Global,
    types: &Types<'a>,
    ty: Option<&'a Ty>,
    items: Option<&[MetaItem]>,
) -> Result<Option<Flaw>, Memory>
    ensures { IfOk result (λ flaw. flaw
        ≡ spec.entry_flaw types.now.units (option_copied ty.entry) (option_copied items.entry)) }
{
    match items {
        Some(items) => items_flaw(alloc, types, ty, items),
        None => Ok(when(true, Code::E08)),
    }
}

fn is_level(level: Option<u64>) -> bool
    ensures { result ≡ spec.is_level level }
{
    match level {
        Some(level) => level <= 2,
        None => false,
    }
}

fn visibility_flaw(items: Option<&[MetaItem]>) -> Option<Flaw>
    ensures { result ≡ spec.visibility_flaw (option_copied items.entry) }
{
    match items {
        Some(items) => when(!is_level(lone_number(items)), Code::E08),
        None => when(true, Code::E08),
    }
}

/// Whether an attachment gives a type entry.
pub fn is_type(attach: &Attach) -> bool
    ensures { result ≡ spec.is_type attach.now }
{
    attach.kind.bytes() == b"type".as_slice()
}

/// Whether an attachment gives the visibility of a vtable.
pub fn is_visibility(attach: &Attach) -> bool
    ensures { result ≡ spec.is_visibility attach.now }
{
    attach.kind.bytes() == b"vcall_visibility".as_slice()
}

fn source_flaw<'a>(
    alloc: Global,
    types: &Types<'a>,
    ty: Option<&'a Ty>,
    attach: &Attach,
) -> Result<Option<Flaw>, Memory>
    ensures { IfOk result (λ flaw. flaw
        ≡ spec.source_flaw types.now.output types.now.units (option_copied ty.entry) attach.now) }
{
    let context = types.context();
    if is_type(attach) {
        let used = use_flaw(alloc, context, Space::Nodes, attach.node.bytes())?;
        let items = node_items(context, attach.node.bytes());
        return Ok(counts(used, entry_flaw(alloc, types, ty, items)?));
    }
    if is_visibility(attach) {
        let used = use_flaw(alloc, context, Space::Nodes, attach.node.bytes())?;
        let items = node_items(context, attach.node.bytes());
        return Ok(counts(used, visibility_flaw(items)));
    }
    Ok(None)
}

fn output_flaw(alloc: Global, attach: &Attach) -> Result<Option<Flaw>, Memory>
    ensures { IfOk result (λ flaw. flaw ≡ spec.output_flaw attach.now) }
{
    if is_type(attach) {
        return worded_when(alloc, true, Code::E07, b"!type");
    }
    worded_when(
        alloc,
        is_visibility(attach),
        Code::E07,
        b"!vcall_visibility",
    )
}

fn attachment_flaw<'a>(
    alloc: Global,
    types: &Types<'a>,
    ty: Option<&'a Ty>,
    attach: &Attach,
) -> Result<Option<Flaw>, Memory>
    ensures { IfOk result (λ flaw. flaw
        ≡ spec.attachment_flaw types.now.output types.now.units (option_copied ty.entry) attach.now) }
{
    if types.context().is_output() {
        output_flaw(alloc, attach)
    } else {
        source_flaw(alloc, types, ty, attach)
    }
}

fn variable_flaw<'a>(
    alloc: Global,
    types: &Types<'a>,
    ty: &'a Ty,
    attached: &[Attach],
) -> Result<Option<Flaw>, Memory>
    ensures { IfOk result (λ flaw. flaw
        ≡ each (spec.attachment_flaw types.now.output types.now.units (Some ty.now)) attached.now) }
{
    let mut flaw = None;
    for at in (0..attached.len()).rev() {
        flaw = counts(
            attachment_flaw(alloc, types, Some(ty), &attached[at])?,
            flaw,
        );
    }
    Ok(flaw)
}

fn function_flaw(
    alloc: Global,
    types: &Types<'_>,
    attached: &[Attach],
) -> Result<Option<Flaw>, Memory>
    ensures { IfOk result (λ flaw. flaw
        ≡ each (spec.attachment_flaw types.now.output types.now.units None) attached.now) }
{
    let mut flaw = None;
    for at in (0..attached.len()).rev() {
        flaw = counts(attachment_flaw(alloc, types, None, &attached[at])?, flaw);
    }
    Ok(flaw)
}

/// The flaws of a definition's attachments: of a variable of a type, or of a function, which has none.
///
/// Source: LLVM, "Type Metadata".
#[tactic(auto, unfolding(crate::specs::Attached::attached_flaw))]
pub fn attached_flaw<'a>(
    alloc: Global,
    types: &Types<'a>,
    ty: Option<&'a Ty>,
    attached: &[Attach],
) -> Result<Option<Flaw>, Memory>
    ensures { IfOk result (λ flaw. flaw
        ≡ spec.attached_flaw types.now.output types.now.units (option_copied ty.entry) attached.now) }
{
    match ty {
        Some(ty) => variable_flaw(alloc, types, ty, attached),
        None => function_flaw(alloc, types, attached),
    }
}

fn outputs_flaw(alloc: Global, attached: &[Attach]) -> Result<Option<Flaw>, Memory>
    ensures { IfOk result (λ flaw. flaw ≡ each spec.output_flaw attached.now) }
{
    let mut flaw = None;
    for at in (0..attached.len()).rev() {
        flaw = counts(output_flaw(alloc, &attached[at])?, flaw);
    }
    Ok(flaw)
}

/// The flaws of a declaration's attachments, which a source drops.
#[tactic(auto, unfolding(crate::specs::Attached::declared_flaw))]
pub fn declared_flaw(
    alloc: Global,
    context: &Context<'_>,
    attached: &[Attach],
) -> Result<Option<Flaw>, Memory>
    ensures { IfOk result (λ flaw. flaw ≡ spec.declared_flaw context.now.output attached.now) }
{
    if context.is_output() {
        outputs_flaw(alloc, attached)
    } else {
        Ok(None)
    }
}
