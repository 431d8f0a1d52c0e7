// What nodes of metadata say.
ghost use Rattle.std.specs.Prelude.{◌≡◌};
ghost use Rattle.std.specs.Option.{option_copied};
ghost use Rattle.ir_values.specs.declared.types.Ty.{out-Ty};
ghost use Rattle.ir_values.specs.declared.constants.Const.{out-Const};
ghost use Rattle.ir_values.specs.declared.units.MetaItem.{out-MetaItem};
ghost use Rattle.check_items.specs.Nodes as spec;

use check_names::{Context, Space};
use ir_values::{Const, Form, MetaItem, Ty, Unit, Width};
use ltt_base::Placed;

fn plain_items(form: &Form) -> Option<&[MetaItem]>
    ensures { option_copied result ≡ spec.plain_items form.now }
{
    match form {
        Form::MetadataForm {
            distinct,
            items,
            ..
        } => { if *distinct { None } else { Some(items.items()) } }
        _ => None,
    }
}

fn items_in<'a>(unit: Option<&'a Placed<Unit>>) -> Option<&'a [MetaItem]>
    ensures { option_copied result ≡ spec.items_in (option_copied unit.entry) }
{
    match unit {
        Some(unit) => plain_items(&unit.value.form),
        None => None,
    }
}

/// The items of the node that a number names. None: it is distinct, or nothing defines it.
#[tactic(auto, unfolding(crate::specs::Nodes::node_items))]
pub fn node_items<'a>(context: &Context<'a>, number: &[u8]) -> Option<&'a [MetaItem]>
    ensures { option_copied result ≡ spec.node_items context.now.units number.now }
{
    items_in(context.first_unit(Space::Nodes, number))
}

fn is_distinct(form: &Form) -> bool
    ensures { result ≡ spec.is_distinct form.now }
{
    match form {
        Form::MetadataForm { distinct, .. } => *distinct,
        _ => false,
    }
}

fn is_distinct_in(unit: Option<&Placed<Unit>>) -> bool
    ensures { result ≡ spec.is_distinct_in (option_copied unit.entry) }
{
    match unit {
        Some(unit) => is_distinct(&unit.value.form),
        None => false,
    }
}

/// Whether a number names a distinct node.
#[tactic(auto, unfolding(crate::specs::Nodes::is_distinct_node))]
pub fn is_distinct_node(context: &Context<'_>, number: &[u8]) -> bool
    ensures { result ≡ spec.is_distinct_node context.now.units number.now }
{
    is_distinct_in(context.first_unit(Space::Nodes, number))
}

fn long_number(width: Width, n: u64) -> Option<u64>
    ensures { result ≡ spec.long_number width n }
{
    match width {
        Width::W64 => Some(n),
        _ => None,
    }
}

fn constant_number(constant: &Const) -> Option<u64>
    ensures { result ≡ spec.constant_number (out-Const constant.now) }
{
    match constant {
        Const::Int(width, n) => long_number(*width, *n),
        _ => None,
    }
}

fn typed_number(ty: &Ty, constant: &Const) -> Option<u64>
    ensures { result ≡ spec.typed_number (out-Ty ty.now) (out-Const constant.now) }
{
    match ty {
        Ty::Int(Width::W64) => constant_number(constant),
        _ => None,
    }
}

fn item_number(item: &MetaItem) -> Option<u64>
    ensures { result ≡ spec.item_number (out-MetaItem item.now) }
{
    match item {
        MetaItem::Const(ty, constant) => typed_number(ty, constant),
        _ => None,
    }
}

/// The offset of a type node, `!{i64 N, ID}`.
pub fn offset_of(items: &[MetaItem]) -> Option<u64>
    ensures { result ≡ spec.offset_of items.now }
{
    match items {
        [item, _] => item_number(item),
        _ => None,
    }
}

/// The identifier of a type node.
pub fn id_of(items: &[MetaItem]) -> Option<&MetaItem>
    ensures { option_copied result ≡ spec.id_of items.now }
{
    match items {
        [_, id] => Some(id),
        _ => None,
    }
}

fn is_id(context: &Context<'_>, item: &MetaItem) -> bool
    ensures { result ≡ spec.is_id context.now.units (out-MetaItem item.now) }
{
    match item {
        MetaItem::Word(_) => true,
        MetaItem::Node(number) => is_distinct_node(context, number.bytes()),
        _ => false,
    }
}

/// Whether an item may be an identifier: a string, or a distinct node.
pub fn is_some_id(context: &Context<'_>, item: Option<&MetaItem>) -> bool
    ensures { result ≡ spec.is_some_id context.now.units (option_copied item.entry) }
{
    match item {
        Some(item) => is_id(context, item),
        None => false,
    }
}

/// The number of a node that has it alone, `!{i64 N}`.
pub fn lone_number(items: &[MetaItem]) -> Option<u64>
    ensures { result ≡ spec.lone_number items.now }
{
    match items {
        [item] => item_number(item),
        _ => None,
    }
}
