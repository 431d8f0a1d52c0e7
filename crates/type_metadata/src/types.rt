ghost use Rattle.std.specs.Prelude.{◌≡◌, IfOk, OnOk, MatchResult, map};
ghost use Rattle.std.specs.List.{list_any};
ghost use Rattle.ltt_base.specs.declared.refusal.Fault.TheVariants as fault;
ghost use Rattle.type_metadata.specs.Same.{same_carrier, same_id};
ghost use Rattle.type_metadata.specs.Counted.{AreCounted};
ghost use Rattle.type_metadata.specs.Marks as marked;
ghost use Rattle.type_metadata.specs.Types as typed;

use crate::items::items_of;
use crate::listing::Listing;
use crate::marks::{Mark, marks_of};
use crate::objects::{Carrier, Object, is_same_carrier, is_same_id};
use ir_values::{Module, TypeId};
use ltt_base::{Copied, Fault, List, Memory};
use std::alloc::Global;

/// The type identifiers of a list of modules, in order of first appearance among the entries of the definitions
/// in object order, and beside each its carriers, in object order and each pair once.
#[derive(Drop)]
pub struct Types {
    pub ids: List<TypeId>,
    pub carriers: List<List<Carrier>>,
}

impl Types {
    /// The identifiers that are carried.
    pub fn ids(&self) -> &[TypeId]
        ensures { typed.AreIdentifiers self.now result.now }
    {
        self.ids.items()
    }

    /// What carries an identifier: nothing, where it isn't among `ids`.
    pub fn carriers(&self, id: &TypeId) -> &[Carrier]
        ensures { typed.AreCarriers self.now id.now result.now }
    {
        self.row(id)
    }

    /// Whether an object carries an identifier at an offset, in bytes. Takes no memory.
    pub fn carries(&self, id: &TypeId, object: Object, offset: u64) -> bool
        ensures value { result ≡ typed.has_carrier self.now id.now (record { object = object; offset = offset }) }
        ensures exact { typed.TellsCarrier self.now id.now (record { object = object; offset = offset }) result }
    {
        has(self.row(id), Carrier { object, offset })
    }

    /// Equal types.
    pub fn copy(&self, alloc: Global) -> Result<Types, Memory>
        ensures { IfOk result (λ copy. copy ≡ self.now) }
    {
        Ok(Types {
            ids: self.ids.copied(alloc)?,
            carriers: self.carriers.copied(alloc)?,
        })
    }

    fn row(&self, id: &TypeId) -> &[Carrier]
        ensures { result.now ≡ typed.row_at id.now self.now.ids self.now.carriers }
    {
        let rows = self.carriers.items();
        let ids = self.ids.items();
        for at in 0..ids.len() {
            if at >= rows.len() {
                return &[];
            }
            if is_same_id(id, &ids[at]) {
                return rows[at].items();
            }
        }
        &[]
    }
}

impl Copied for Carrier {
    fn copied(&self, _alloc: Global) -> Result<Carrier, Memory> {
        Ok(*self)
    }
}

fn has(carriers: &[Carrier], carrier: Carrier) -> bool
    ensures { result ≡ list_any (same_carrier carrier) carriers.now }
{
    for other in carriers {
        if is_same_carrier(carrier, *other) {
            return true;
        }
    }
    false
}

fn has_id(ids: &[TypeId], id: &TypeId) -> bool
    ensures { result ≡ list_any (same_id id.now) ids.now }
{
    for other in ids {
        if is_same_id(id, other) {
            return true;
        }
    }
    false
}

/// The type identifiers of a list of modules and their carriers.
///
/// That variables and functions carry different identifiers isn't tested here.
pub fn collect(alloc: Global, modules: &[Module]) -> Result<Types, Fault>
    requires { AreCounted modules.now }
    ensures { MatchResult result (typed.AreTypes modules.now) (λ f. f ≡ fault.Memory) }
{
    match collected(alloc, modules) {
        Ok(types) => Ok(types),
        Err(Memory) => Err(Fault::Memory),
    }
}

fn collected(alloc: Global, modules: &[Module]) -> Result<Types, Memory>
    requires { AreCounted modules.now }
    ensures { IfOk result (typed.AreTypes modules.now) }
{
    let listing = Listing::new(alloc, items_of(alloc, modules)?)?;
    let marks = marks_of(alloc, &listing)?;
    let ids = ids_of(alloc, marks.items())?;
    let carriers = rows_of(alloc, ids.items(), marks.items())?;
    Ok(Types { ids, carriers })
}

fn ids_of(alloc: Global, marks: &[Mark]) -> Result<List<TypeId>, Memory>
    ensures { IfOk result (λ ids. ids ≡ marked.ids_of marks.now) }
{
    let mut ids = List::new(alloc);
    for mark in marks {
        add_id(alloc, &mut ids, &mark.id)?;
    }
    Ok(ids)
}

fn add_id(alloc: Global, ids: &mut List<TypeId>, id: &TypeId) -> Result<(), Memory>
    ensures { OnOk result (ids.new ≡ marked.with_new same_id ids.old id.now) }
{
    if !has_id(ids.items(), id) {
        ids.add(id.copied(alloc)?)?;
    }
    Ok(())
}

fn rows_of(alloc: Global, ids: &[TypeId], marks: &[Mark]) -> Result<List<List<Carrier>>, Memory>
    ensures { IfOk result (λ rows. rows ≡ map (λ id. marked.carriers_of id marks.now) ids.now) }
{
    let mut rows = List::new(alloc);
    for id in ids {
        rows.add(carriers_of(alloc, id, marks)?)?;
    }
    Ok(rows)
}

fn carriers_of(alloc: Global, id: &TypeId, marks: &[Mark]) -> Result<List<Carrier>, Memory>
    ensures { IfOk result (λ row. row ≡ marked.carriers_of id.now marks.now) }
{
    let mut row = List::new(alloc);
    for mark in marks {
        if is_same_id(&mark.id, id) {
            add_carrier(&mut row, mark.carrier)?;
        }
    }
    Ok(row)
}

fn add_carrier(row: &mut List<Carrier>, carrier: Carrier) -> Result<(), Memory>
    ensures { OnOk result (row.new ≡ marked.with_new same_carrier row.old carrier) }
{
    if !has(row.items(), carrier) {
        row.add(carrier)?;
    }
    Ok(())
}
