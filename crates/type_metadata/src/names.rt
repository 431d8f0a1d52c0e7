// Maps from the names of items to the first objects that have them.
ghost use Rattle.std.specs.Prelude.{◌≡◌, ◌&&◌, ℕ, List, cond, nat_eq, Some, None, IfOk, OnOk};
ghost use Rattle.std.specs.Ordering.{nat_cmp};
ghost use Rattle.std.specs.Str.{bytes_eq};
ghost use Rattle.std.specs.BTreeMap.{get};
ghost use Rattle.type_metadata.specs.Denoted as names;
ghost use Rattle.type_metadata.specs.Listed.{at_name, at_name_in, FindsCalled, FindsOwn};

use crate::denoting::is_same_linkage;
use crate::items::Item;
use crate::objects::Object;
use ir_values::Linkage;
use ltt_base::Memory;
use std::alloc::{AllocError, Global};
use std::collections::BTreeMap;

/// Objects by their names.
pub(crate) type Names = BTreeMap<Vec<u8>, Object>;

/// Objects by their files, and then by their names.
pub(crate) type OwnNames = BTreeMap<u32, Names>;

fn put_key(alloc: Global, map: &mut Names, name: &[u8], object: Object) -> Result<(), AllocError>
    ensures { OnOk result ((q : List ℕ) → at_name q map.new
        ≡ cond (bytes_eq name.now q) (Some object) (at_name q map.old)) }
{
    let key = Vec::from_slice(alloc, name)?;
    map.insert(key, object)?;
    Ok(())
}

fn put(alloc: Global, map: &mut Names, name: &[u8], object: Object) -> Result<(), Memory>
    ensures { OnOk result ((q : List ℕ) → at_name q map.new
        ≡ cond (bytes_eq name.now q) (Some object) (at_name q map.old)) }
{
    match put_key(alloc, map, name, object) {
        Ok(()) => Ok(()),
        Err(_) => Err(Memory),
    }
}

fn note_called(alloc: Global, map: &mut Names, linkage: Linkage, item: &Item) -> Result<(), Memory>
    ensures { OnOk result ((q : List ℕ) → at_name q map.new
        ≡ cond (names.is_called linkage q item.now) (Some item.now.object) (at_name q map.old)) }
{
    if is_same_linkage(item.linkage, linkage) {
        put(alloc, map, item.name.bytes(), item.object)
    } else {
        Ok(())
    }
}

/// The first object of a linkage and each name.
pub(crate) fn called(alloc: Global, linkage: Linkage, items: &[Item]) -> Result<Names, Memory>
    ensures { IfOk result (FindsCalled linkage items.now) }
{
    let mut map = BTreeMap::new(alloc);
    for at in (0..items.len()).rev() {
        note_called(alloc, &mut map, linkage, &items[at])?;
    }
    Ok(map)
}

// The names of a file, taken out.
fn taken(alloc: Global, maps: &mut OwnNames, file: u32) -> Names
    ensures taken { (q : List ℕ) → at_name q result ≡ at_name_in file q maps.old }
    ensures rest { (other : ℕ) → get nat_cmp maps.new other
        ≡ cond (nat_eq file other) None (get nat_cmp maps.old other) }
{
    match maps.remove(&file) {
        Some(map) => map,
        None => BTreeMap::new(alloc),
    }
}

fn put_back(maps: &mut OwnNames, file: u32, map: Names) -> Result<(), Memory>
    ensures { OnOk result ((other : ℕ) → get nat_cmp maps.new other
        ≡ cond (nat_eq file other) (Some map) (get nat_cmp maps.old other)) }
{
    match maps.insert(file, map) {
        Ok(_) => Ok(()),
        Err(_) => Err(Memory),
    }
}

fn put_own(
    alloc: Global,
    maps: &mut OwnNames,
    file: u32,
    name: &[u8],
    object: Object,
) -> Result<(), Memory>
    ensures { OnOk result ((other : ℕ) (q : List ℕ) → at_name_in other q maps.new
        ≡ cond (nat_eq file other && bytes_eq name.now q) (Some object) (at_name_in other q maps.old)) }
{
    let mut map = taken(alloc, maps, file);
    put(alloc, &mut map, name, object)?;
    put_back(maps, file, map)
}

fn note_own(alloc: Global, maps: &mut OwnNames, item: &Item) -> Result<(), Memory>
    ensures { OnOk result ((file : ℕ) (q : List ℕ) → at_name_in file q maps.new
        ≡ cond (names.is_own file q item.now) (Some item.now.object) (at_name_in file q maps.old)) }
{
    if is_same_linkage(item.linkage, Linkage::Private) {
        put_own(
            alloc,
            maps,
            item.object.file,
            item.name.bytes(),
            item.object,
        )
    } else {
        Ok(())
    }
}

/// Each file's own private definition of each name.
pub(crate) fn own(alloc: Global, items: &[Item]) -> Result<OwnNames, Memory>
    ensures { IfOk result (FindsOwn items.now) }
{
    let mut maps = BTreeMap::new(alloc);
    for at in (0..items.len()).rev() {
        note_own(alloc, &mut maps, &items[at])?;
    }
    Ok(maps)
}
