// The functions that units become.
ghost use Rattle.std.specs.Prelude.{◌≡◌, ◌++◌, ◌<◌, length, map, IfOk, OnOk};
ghost use Rattle.built_modules.specs.Functions as spec;

use crate::blocks::body_blocks;
use crate::linkages::linkage_of;
use check_bodies::{Defined, parameters};
use check_items::entries_of;
use check_names::is_intrinsic;
use check_operands::Made;
use check_types::{Types, replaced};
use ir_values::{Block, Entry, Form, Func, FuncTy, Head, Param, Ty, Unit};
use ltt_base::{Copied, List, Memory, Place, Placed, Text};
use std::alloc::Global;

fn param_types<'a>(
    alloc: Global,
    types: &Types<'a>,
    params: &'a [Param],
) -> Result<List<Ty>, Memory>
    ensures { IfOk result (λ tys. tys ≡ spec.param_types types.now.units params.now) }
{
    let mut tys = List::new(alloc);
    for param in params {
        tys.add(replaced(alloc, types, &param.ty)?)?;
    }
    Ok(tys)
}

fn type_of<'a>(alloc: Global, types: &Types<'a>, head: &'a Head) -> Result<FuncTy, Memory>
    ensures { IfOk result (λ fty. fty ≡ spec.type_of types.now.units head.now) }
{
    Ok(FuncTy {
        result: replaced(alloc, types, &head.result)?,
        params: param_types(alloc, types, head.params.items())?,
    })
}

fn names_in(alloc: Global, defined: &[Defined]) -> Result<List<Text>, Memory>
    ensures { IfOk result (λ names. names ≡ map (λ one. one.name) defined.now) }
{
    let mut names = List::new(alloc);
    for one in defined {
        names.add(one.name.copied(alloc)?)?;
    }
    Ok(names)
}

fn param_names(alloc: Global, params: &[Param]) -> Result<List<Text>, Memory>
    ensures { IfOk result (λ names. names ≡ spec.param_names params.now) }
{
    let defined = parameters(alloc, params)?;
    names_in(alloc, defined.items())
}

fn func_of<'a>(
    alloc: Global,
    types: &Types<'a>,
    place: Place,
    head: &'a Head,
    declared: bool,
    blocks: List<Block>,
    entries: List<Entry>,
) -> Result<Func, Memory>
    ensures { IfOk result (λ func. func ≡ spec.func_of types.now.units place head.now declared blocks entries) }
{
    Ok(Func {
        place,
        name: head.name.copied(alloc)?,
        linkage: linkage_of(declared, head.linkage.as_ref()),
        fty: type_of(alloc, types, head)?,
        params: param_names(alloc, head.params.items())?,
        blocks,
        entries,
    })
}

fn defined<'a>(
    alloc: Global,
    types: &Types<'a>,
    made: &'a Made,
    file: u32,
    at: usize,
    place: Place,
    head: &'a Head,
) -> Result<Func, Memory>
    requires { at < length types.now.units }
    ensures { IfOk result (λ func. func
        ≡ spec.defined types.now.output types.now.units file at place head.now) }
{
    let blocks = body_blocks(alloc, types, made, file, at)?;
    let entries = entries_of(alloc, types.context(), file, head.attached.items())?;
    func_of(alloc, types, place, head, false, blocks, entries)
}

fn declared<'a>(
    alloc: Global,
    types: &Types<'a>,
    place: Place,
    head: &'a Head,
) -> Result<Func, Memory>
    ensures { IfOk result (λ func. func ≡ spec.declared types.now.units place head.now) }
{
    let blocks = List::new(alloc);
    let entries = List::new(alloc);
    func_of(alloc, types, place, head, true, blocks, entries)
}

fn add_declared<'a>(
    alloc: Global,
    types: &Types<'a>,
    funcs: &mut List<Func>,
    place: Place,
    head: &'a Head,
) -> Result<(), Memory>
    ensures { OnOk result (funcs.new ≡ funcs.old ++ spec.declared_in types.now.units place head.now) }
{
    if is_intrinsic(head.name.bytes()) {
        return Ok(());
    }
    let func = declared(alloc, types, place, head)?;
    funcs.add(func)
}

fn add_func<'a>(
    alloc: Global,
    types: &Types<'a>,
    made: &'a Made,
    file: u32,
    funcs: &mut List<Func>,
    at: usize,
    place: Place,
    form: &'a Form,
) -> Result<(), Memory>
    requires { at < length types.now.units }
    ensures { OnOk result (funcs.new
        ≡ funcs.old ++ spec.funcs_in types.now.output types.now.units file at place form.now) }
{
    match form {
        Form::DeclareForm { head } => add_declared(alloc, types, funcs, place, head),
        Form::DefineForm { head } => {
            let func = defined(alloc, types, made, file, at, place, head)?;
            funcs.add(func)
        }
        _ => Ok(()),
    }
}

/// The functions of the units of a file, in the order of the text.
///
/// Source: LLVM Language Reference, "Functions".
#[tactic(auto, unfolding(crate::specs::Functions::funcs_from))]
pub(crate) fn funcs_of<'a>(
    alloc: Global,
    types: &Types<'a>,
    made: &'a Made,
    file: u32,
    units: &'a [Placed<Unit>],
) -> Result<List<Func>, Memory>
    requires { units.now ≡ types.now.units }
    ensures { IfOk result (λ funcs. funcs
        ≡ spec.funcs_from types.now.output types.now.units file 0 units.now) }
{
    let mut funcs = List::new(alloc);
    for at in 0..units.len() {
        let unit = &units[at];
        add_func(
            alloc,
            types,
            made,
            file,
            &mut funcs,
            at,
            unit.place,
            &unit.value.form,
        )?;
    }
    Ok(funcs)
}
