ghost use Rattle.std.specs.Prelude.{◌≡◌, IfOk};
ghost use Rattle.ir_values.specs.declared.modules.Linkage.TheVariants.{Strong, Weak, External};
ghost use Rattle.type_metadata.specs.Denoted as names;
ghost use Rattle.type_metadata.specs.Places.{place_of};

use crate::items::Item;
use crate::names::{Names, OwnNames, called, own};
use crate::objects::{Denoted, Object};
use crate::places::{Places, find, places};
use ir_values::Linkage;
use ltt_base::{List, Memory};
use std::alloc::Global;
use std::marker::Model;

/// The items of a list of modules, and which of them is the first of each name and of each object.
///
/// A look-up takes time that grows with the logarithm of the number of items, and no memory.
#[derive(Drop)]
pub struct Listing {
    items: List<Item>,
    own: OwnNames,
    strong: Names,
    weak: Names,
    external: Names,
    places: Places,
}

impl Model for Listing {
    ghost use Rattle.std.specs.Prelude.{List};
    ghost use Rattle.type_metadata.specs.declared.items.Item.{Item};

    ghost Value = { List Item };

    ghost view = { λ listing. listing.items };

    ghost use Rattle.ir_values.specs.declared.modules.Linkage.TheVariants.{Strong, Weak, External};
    ghost use Rattle.type_metadata.specs.Listed.{FindsCalled, FindsOwn, FindsPlaces};

    // the maps find the first items
    ghost invariant = { λ listing. FindsOwn listing.items listing.own
        × FindsCalled Strong listing.items listing.strong
        × FindsCalled Weak listing.items listing.weak
        × FindsCalled External listing.items listing.external
        × FindsPlaces listing.items listing.places };
}

impl Listing {
    /// A listing of these items.
    pub fn new(alloc: Global, items: List<Item>) -> Result<Listing, Memory>
        ensures { IfOk result (λ listing. listing ≡ items) }
    {
        let own = own(alloc, items.items())?;
        let strong = called(alloc, Linkage::Strong, items.items())?;
        let weak = called(alloc, Linkage::Weak, items.items())?;
        let external = called(alloc, Linkage::External, items.items())?;
        let places = places(alloc, items.items())?;
        Ok(Listing {
            items,
            own,
            strong,
            weak,
            external,
            places,
        })
    }

    /// The items.
    pub fn items(&self) -> &[Item]
        ensures { result.now ≡ self.now }
    {
        self.items.items()
    }

    /// What a name in a file denotes among the items: the file's own private definition of it, else the first strong
    /// definition, else the first weak one, else an external.
    ///
    /// Source: LLVM Language Reference, "Linkage Types".
    pub fn denoted(&self, file: u32, name: &[u8]) -> Denoted
        ensures { result ≡ names.denoted self.now file name.now }
    {
        if let Some(object) = self.private(file, name) {
            return Denoted::Item(object);
        }
        if let Some(object) = self.strong(name) {
            return Denoted::Item(object);
        }
        match self.weak(name) {
            Some(object) => Denoted::Item(object),
            None => Denoted::External,
        }
    }

    /// The first item that declares a name.
    pub fn declared(&self, name: &[u8]) -> Option<Object>
        ensures { result ≡ names.first (names.is_called External name.now) self.now }
    {
        self.external.get(name).copied()
    }

    /// The place of an object among the items, counted from 0.
    pub fn place_of(&self, object: Object) -> Option<usize>
        ensures { result ≡ place_of object self.now }
    {
        find(&self.places, object)
    }

    fn private(&self, file: u32, name: &[u8]) -> Option<Object>
        ensures { result ≡ names.first (names.is_own file name.now) self.now }
    {
        match self.own.get(&file) {
            Some(names) => names.get(name).copied(),
            None => None,
        }
    }

    fn strong(&self, name: &[u8]) -> Option<Object>
        ensures { result ≡ names.first (names.is_called Strong name.now) self.now }
    {
        self.strong.get(name).copied()
    }

    fn weak(&self, name: &[u8]) -> Option<Object>
        ensures { result ≡ names.first (names.is_called Weak name.now) self.now }
    {
        self.weak.get(name).copied()
    }
}
