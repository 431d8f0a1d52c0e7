ghost use Rattle.std.specs.Prelude.{◌≡◌, IfOk};
ghost use Rattle.thin_files.specs.Places.{place_at, ArePlaces};

use ltt_base::{Memory, Text};
use std::alloc::Global;
use std::collections::BTreeMap;

/// A place of each text in a list, by its bytes.
pub(super) fn places_of(alloc: Global, texts: &[Text]) -> Result<BTreeMap<&[u8], usize>, Memory>
    ensures { IfOk result (ArePlaces texts.now) }
{
    let mut places = BTreeMap::new(alloc);
    for (place, text) in texts.iter().enumerate() {
        match places.insert(text.bytes(), place) {
            Ok(_) => {}
            Err(_) => return Err(Memory),
        }
    }
    Ok(places)
}

/// The place that stands at these bytes.
pub(super) fn place_of(places: &BTreeMap<&[u8], usize>, text: &[u8]) -> Option<usize>
    ensures { result ≡ place_at places.now text.now }
{
    places.get(text).copied()
}
