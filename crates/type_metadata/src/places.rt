// A map from the objects of items to their places.
ghost use Rattle.std.specs.Prelude.{◌≡◌, cond, Some, IfOk, OnOk};
ghost use Rattle.type_metadata.specs.declared.objects.Object.{Object};
ghost use Rattle.type_metadata.specs.Same.{same_object};
ghost use Rattle.type_metadata.specs.Listed.{at_object, FindsPlaces};

use crate::items::Item;
use crate::objects::Object;
use ltt_base::Memory;
use std::alloc::Global;
use std::collections::BTreeMap;

/// Places by the file of an object, whether it is a function, and its number.
pub(crate) type Places = BTreeMap<((u32, bool), u32), usize>;

fn put(map: &mut Places, object: Object, at: usize) -> Result<(), Memory>
    ensures { OnOk result ((other : Object) → at_object other map.new
        ≡ cond (same_object object other) (Some at) (at_object other map.old)) }
{
    match map.insert(((object.file, object.function), object.index), at) {
        Ok(_) => Ok(()),
        Err(_) => Err(Memory),
    }
}

/// The place of each object.
pub(crate) fn places(alloc: Global, items: &[Item]) -> Result<Places, Memory>
    ensures { IfOk result (FindsPlaces items.now) }
{
    let mut map = BTreeMap::new(alloc);
    for at in (0..items.len()).rev() {
        put(&mut map, items[at].object, at)?;
    }
    Ok(map)
}

/// The place that the map has for an object.
pub(crate) fn find(map: &Places, object: Object) -> Option<usize>
    ensures { result ≡ at_object object map.now }
{
    map.get(&((object.file, object.function), object.index))
        .copied()
}
