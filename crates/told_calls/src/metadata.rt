// That calls succeed where memory is there, on two files: the first declares a variable, and the second defines it.
ghost use Rattle.std.specs.Prelude.{IfOk, ◌≡◌, ◌∷◌, []};
ghost use Rattle.type_metadata.specs.Counted.{IsCounted, AreCounted};

use ir_values::{Entry, Linkage, Module, Ty, TypeId, Var, Width};
use ltt_base::{List, Memory, Place, Text};
use std::alloc::Global;
use std::test::Fail;
use type_metadata::{
    Denoted, Listing, Object, collect, denotes, extent_of, is_same_object, items_of,
};

fn one<T: Drop>(alloc: Global, item: T) -> Result<List<T>, Memory>
    ensures { IfOk result (λ list. list ≡ item ∷ []) }
{
    let mut list = List::new(alloc);
    list.add(item)?;
    Ok(list)
}

// The identifier "T".
fn id(alloc: Global) -> Result<TypeId, Memory> {
    Ok(TypeId::Name(Text::copy(alloc, b"T")?))
}

fn entry(alloc: Global) -> Result<Entry, Memory> {
    Ok(Entry {
        offset: 8,
        id: id(alloc)?,
    })
}

// An `i64`, with an entry at its end.
fn variable(alloc: Global, linkage: Linkage) -> Result<Var, Memory>
    ensures { IfOk result (λ v. v.ty ≡ Ty.Int Width.W64) }
{
    Ok(Var {
        place: Place {
            file: 1,
            line: 1,
            column: 1,
        },
        name: Text::copy(alloc, b"a")?,
        linkage,
        constant: true,
        ty: Ty::Int(Width::W64),
        init: None,
        align: 8,
        entries: one(alloc, entry(alloc)?)?,
        visibility: 0,
    })
}

fn module(alloc: Global, linkage: Linkage) -> Result<Module, Memory>
    ensures { IfOk result IsCounted }
{
    Ok(Module {
        vars: one(alloc, variable(alloc, linkage)?)?,
        funcs: List::new(alloc),
        jumps: List::new(alloc),
    })
}

fn modules(alloc: Global) -> Result<List<Module>, Memory>
    ensures { IfOk result AreCounted }
{
    let mut modules = one(alloc, module(alloc, Linkage::External)?)?;
    modules.add(module(alloc, Linkage::Strong)?)?;
    Ok(modules)
}

const DEFINED: Object = Object {
    file: 2,
    function: false,
    index: 0,
};

#[test]
fn a_definition_in_another_file_carries(rt: HostRuntime) -> Result<(), Fail> {
    let alloc = rt.alloc();
    let modules = modules(alloc)?;
    let types = collect(alloc, modules.items())?;
    let id = id(alloc)?;
    assert_eq!(rt; types.ids().len(), 1);
    assert_eq!(rt; types.carriers(&id).len(), 1);
    assert!(rt; types.carries(&id, DEFINED, 8));
    assert!(rt; !types.carries(&id, DEFINED, 0));
    Ok(())
}

#[test]
fn types_are_copied(rt: HostRuntime) -> Result<(), Fail> {
    let alloc = rt.alloc();
    let modules = modules(alloc)?;
    let types = collect(alloc, modules.items())?;
    let copy = types.copy(alloc)?;
    assert_eq!(rt; copy.ids().len(), 1);
    Ok(())
}

#[test]
fn items_stand_in_object_order(rt: HostRuntime) -> Result<(), Fail> {
    let alloc = rt.alloc();
    let modules = modules(alloc)?;
    let items = items_of(alloc, modules.items())?;
    assert_eq!(rt; items.items().len(), 2);
    assert!(rt; is_same_object(items.items()[1].object, DEFINED));
    Ok(())
}

#[test]
fn a_declared_name_denotes_its_definition(rt: HostRuntime) -> Result<(), Fail> {
    let alloc = rt.alloc();
    let modules = modules(alloc)?;
    match denotes(modules.items(), 1, b"a") {
        Denoted::Item(object) => assert!(rt; is_same_object(object, DEFINED)),
        Denoted::External => assert!(rt; false),
    }
    Ok(())
}

#[test]
fn a_listing_finds_names_and_objects(rt: HostRuntime) -> Result<(), Fail> {
    let alloc = rt.alloc();
    let modules = modules(alloc)?;
    let listing = Listing::new(alloc, items_of(alloc, modules.items())?)?;
    assert_eq!(rt; listing.items().len(), 2);
    match listing.denoted(1, b"a") {
        Denoted::Item(object) => assert!(rt; is_same_object(object, DEFINED)),
        Denoted::External => assert!(rt; false),
    }
    match listing.declared(b"a") {
        Some(object) => assert_eq!(rt; listing.place_of(object), Some(0)),
        None => assert!(rt; false),
    }
    assert_eq!(rt; listing.place_of(DEFINED), Some(1));
    Ok(())
}

#[test]
fn a_private_name_is_of_its_file(rt: HostRuntime) -> Result<(), Fail> {
    let alloc = rt.alloc();
    let mut modules = one(alloc, module(alloc, Linkage::Private)?)?;
    modules.add(module(alloc, Linkage::Private)?)?;
    let listing = Listing::new(alloc, items_of(alloc, modules.items())?)?;
    for file in [1u32, 2] {
        match listing.denoted(file, b"a") {
            Denoted::Item(object) => assert_eq!(rt; object.file, file),
            Denoted::External => assert!(rt; false),
        }
    }
    match listing.denoted(3, b"a") {
        Denoted::Item(_) => assert!(rt; false),
        Denoted::External => {}
    }
    Ok(())
}

#[test]
fn an_entry_at_the_end_adds_to_the_extent(rt: HostRuntime) -> Result<(), Fail> {
    let variable = variable(rt.alloc(), Linkage::Strong)?;
    assert_eq!(rt; extent_of(&variable), 9);
    Ok(())
}
