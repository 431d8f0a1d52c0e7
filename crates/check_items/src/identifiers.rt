// How many different type identifiers a file has up to a place.
ghost use Rattle.std.specs.Prelude.{◌≡◌, ◌∷◌, ◌++◌, ◌-◌, ◌||◌, ◌<◌, ℕ, List, nat_lt, length, take, IfOk, OnOk};
ghost use Rattle.std.specs.Option.{option_copied};
ghost use Rattle.std.specs.Str.{bytes_eq};
ghost use Rattle.ir_values.specs.declared.units.MetaItem.{out-MetaItem};
ghost use Rattle.check_items.specs.Found.{has, is_in};
ghost use Rattle.check_items.specs.Identifiers as spec;

use crate::attached::is_type;
use crate::counts::kept_attached;
use crate::nodes::{id_of, node_items, offset_of};
use check_names::{Context, Flaw, worded_when};
use check_types::Types;
use ir_values::{Attach, MetaItem};
use ltt_base::{Code, Copied, List, Memory, Text};
use std::alloc::Global;
use std::collections::BTreeSet;

fn behind(alloc: Global, sign: u8, bytes: &[u8]) -> Result<Text, Memory>
    ensures { IfOk result (λ text. text ≡ sign ∷ bytes.now) }
{
    let mut text = Text::new(alloc);
    text.push(sign)?;
    text.extend(bytes)?;
    Ok(text)
}

fn add_written(alloc: Global, names: &mut List<Text>, item: &MetaItem) -> Result<(), Memory>
    ensures { OnOk result (names.new ≡ names.old ++ spec.written (out-MetaItem item.now)) }
{
    match item {
        MetaItem::Word(text) => names.add(behind(alloc, b'"', text.bytes())?),
        MetaItem::Node(digits) => names.add(behind(alloc, b'!', digits.bytes())?),
        _ => Ok(()),
    }
}

fn add_written_with(
    alloc: Global,
    names: &mut List<Text>,
    offset: Option<u64>,
    item: Option<&MetaItem>,
) -> Result<(), Memory>
    ensures { OnOk result (names.new ≡ names.old ++ spec.written_with offset (option_copied item.entry)) }
{
    match (offset, item) {
        (Some(_), Some(item)) => add_written(alloc, names, item),
        _ => Ok(()),
    }
}

fn add_written_in(
    alloc: Global,
    names: &mut List<Text>,
    items: Option<&[MetaItem]>,
) -> Result<(), Memory>
    ensures { OnOk result (names.new ≡ names.old ++ spec.written_in (option_copied items.entry)) }
{
    match items {
        Some(items) => add_written_with(alloc, names, offset_of(items), id_of(items)),
        None => Ok(()),
    }
}

fn add_identifier_of(
    alloc: Global,
    context: &Context<'_>,
    names: &mut List<Text>,
    attach: &Attach,
) -> Result<(), Memory>
    ensures { OnOk result (names.new ≡ names.old ++ spec.identifier_of context.now.units attach.now) }
{
    if is_type(attach) {
        let items = node_items(context, attach.node.bytes());
        add_written_in(alloc, names, items)
    } else {
        Ok(())
    }
}

/// The identifiers of the entries of attachments, in the order of the text: a string behind `"`, a node's number behind `!`.
#[tactic(auto, unfolding(crate::specs::Identifiers::identifiers_of))]
fn identifiers_of(
    alloc: Global,
    context: &Context<'_>,
    attached: &[Attach],
) -> Result<List<Text>, Memory>
    ensures { IfOk result (λ names. names ≡ spec.identifiers_of context.now.units attached.now) }
{
    let mut names = List::new(alloc);
    for attach in attached {
        add_identifier_of(alloc, context, &mut names, attach)?;
    }
    Ok(names)
}

fn put(found: &mut BTreeSet<Text>, name: Text) -> Result<(), Memory>
    ensures { OnOk result ((q : List ℕ) → has q found.new ≡ (has q found.old || bytes_eq q name)) }
{
    match found.insert(name) {
        Ok(_) => Ok(()),
        Err(_) => Err(Memory),
    }
}

fn put_all(alloc: Global, found: &mut BTreeSet<Text>, names: &[Text]) -> Result<(), Memory>
    ensures { OnOk result ((q : List ℕ) → has q found.new ≡ (has q found.old || is_in q names.now)) }
{
    for name in names {
        put(found, name.copied(alloc)?)?;
    }
    Ok(())
}

/// Puts names to those that were found, but no more than `left`; how many more may come behind them.
#[tactic(auto, using(crate::proofs::FoundLemmas::take_min))]
fn put_counted(
    alloc: Global,
    found: &mut BTreeSet<Text>,
    left: usize,
    names: &[Text],
) -> Result<usize, Memory>
    ensures found { OnOk result ((q : List ℕ) → has q found.new ≡ (has q found.old || is_in q (take left names.now))) }
    ensures left { IfOk result (λ rest. rest ≡ left - length names.now) }
{
    let many = names.len().min(left);
    put_all(alloc, found, &names[..many])?;
    Ok(left - many)
}

fn is_past(many: usize) -> bool
    ensures { result ≡ nat_lt 65536 many }
{
    many > 65_536
}

#[tactic(auto, unfolding(crate::specs::Identifiers::most_counted))]
fn first_past(alloc: Global, context: &Context<'_>) -> Result<Option<usize>, Memory>
    ensures { IfOk result (spec.IsTooManyFrom context.now.units) }
{
    let units = context.units();
    let mut found = BTreeSet::new(alloc);
    let mut left = 1_048_577;
    for at in 0..units.len() {
        let attached = kept_attached(&units[at].value.form);
        let names = identifiers_of(alloc, context, attached)?;
        left = put_counted(alloc, &mut found, left, names.items())?;
        let many = found.len();
        if is_past(many) {
            return Ok(Some(at));
        }
    }
    Ok(None)
}

/// The first unit with whose entries there are more than 65,536 different identifiers. None: there never are.
///
/// Of a file's entries the first 1,048,577 count, since with the last of these there are too many entries. It takes n log n
/// steps in them.
///
/// Source: LLVM, "Type Metadata", "Type identifiers".
pub fn too_many_from(alloc: Global, types: &Types<'_>) -> Result<Option<usize>, Memory>
    ensures { IfOk result (spec.IsTooManyFrom types.now.units) }
{
    first_past(alloc, types.context())
}

fn is_reached(from: Option<usize>, at: usize) -> bool
    ensures { result ≡ spec.is_reached from at }
{
    match from {
        Some(place) => place <= at,
        None => false,
    }
}

fn has_too_many(types: &Types<'_>, from: Option<usize>, at: usize) -> bool
    requires inside { at < length types.now.units }
    requires from { spec.IsTooManyFrom types.now.units from }
    ensures { result ≡ spec.has_too_many types.now.units at }
{
    let _ = types;
    is_reached(from, at)
}

/// The flaw of a definition with whose entries there are more different identifiers than a file may have, which is 65,536.
/// `from` is the first unit of which this is so.
pub fn identifiers_flaw(
    alloc: Global,
    types: &Types<'_>,
    from: Option<usize>,
    at: usize,
) -> Result<Option<Flaw>, Memory>
    requires inside { at < length types.now.units }
    requires from { spec.IsTooManyFrom types.now.units from }
    ensures { IfOk result (λ flaw. flaw ≡ spec.identifiers_flaw types.now.units at) }
{
    let past = has_too_many(types, from, at);
    worded_when(alloc, past, Code::E12, b"identifiers")
}
