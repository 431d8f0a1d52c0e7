ghost use Rattle.std.specs.Prelude.{◌≡◌, ◌++◌, IfOk, OnOk, map};
ghost use Rattle.type_metadata.specs.Marks as marked;

use crate::denoting::is_same_linkage;
use crate::items::Item;
use crate::listing::Listing;
use crate::objects::{Carrier, Denoted, Object, is_same_object};
use ir_values::{Entry, Linkage, TypeId};
use ltt_base::{Copied, List, Memory};
use std::alloc::Global;

/// An entry of a definition that is kept: the identifier, and what carries it.
#[derive(Drop)]
pub struct Mark {
    pub id: TypeId,
    pub carrier: Carrier,
}

/// The entries of the kept definitions among these items, in their order.
pub(crate) fn marks_of(alloc: Global, listing: &Listing) -> Result<List<Mark>, Memory>
    ensures { IfOk result (λ marks. marks ≡ marked.marks_from listing.now listing.now) }
{
    let mut marks = List::new(alloc);
    for item in listing.items() {
        if is_kept(listing, item) {
            add_entries(alloc, &mut marks, item.object, item.entries.items())?;
        }
    }
    Ok(marks)
}

fn is_kept(listing: &Listing, item: &Item) -> bool
    ensures { result ≡ marked.is_kept listing.now item.now }
{
    if is_same_linkage(item.linkage, Linkage::Private) {
        return true;
    }
    match listing.denoted(item.object.file, item.name.bytes()) {
        Denoted::Item(object) => is_same_object(object, item.object),
        Denoted::External => false,
    }
}

fn add_entries(
    alloc: Global,
    marks: &mut List<Mark>,
    object: Object,
    entries: &[Entry],
) -> Result<(), Memory>
    ensures { OnOk result (marks.new ≡ marks.old ++ map (marked.mark_of object) entries.now) }
{
    for entry in entries {
        let id = entry.id.copied(alloc)?;
        let carrier = Carrier {
            object,
            offset: entry.offset,
        };
        marks.add(Mark { id, carrier })?;
    }
    Ok(())
}
