// The output module of a thin file.
ghost use Rattle.std.specs.Prelude.{◌≡◌, ℕ, ◌+◌, ◌*◌, ◌^◌, ◌<◌, ◌≤◌, [], ◌∷◌, IfOk, map, nat_le, if◌then◌else◌};
ghost use Rattle.thin_files.specs.Thin as spec;
ghost use Rattle.test_lowering.specs.Rewriting as output;

use crate::functions::lowered_functions;
use ir_values::{Const, Linkage, Module, Ty, Var, Width};
use itoa::Buffer;
use ltt_base::{Boxed, List, Memory, Place, Text};
use std::alloc::Global;
use thin_files::{Thin, Variable};

/// The output module of a thin file.
pub fn lower_thin(alloc: Global, thin: &Thin) -> Result<Module, Memory>
    requires { spec.IsAllowed thin.now }
    ensures { IfOk result (λ m. m ≡ output.rewritten (spec.module_of thin.now)) }
{
    let vars = combined_variables(alloc, thin.variables.items())?;
    let funcs = lowered_functions(alloc, thin)?;
    Ok(Module {
        vars,
        funcs,
        jumps: List::new(alloc),
    })
}

// A list of one item.
pub fn one<T: Drop>(alloc: Global, item: T) -> Result<List<T>, Memory>
    ensures { IfOk result (λ list. list ≡ item ∷ []) }
{
    let mut list = List::new(alloc);
    match list.push(item) {
        Ok(()) => Ok(list),
        Err(_) => Err(Memory),
    }
}

// The least power of two that is at least n.
fn power_above(n: u64) -> u64
    requires { n ≤ 2 ^ 32 }
    ensures { result ≡ output.power_above n }
{
    let mut power = 1;
    for _doublings in 0..64u64 {
        if n <= power {
            return power;
        }
        power *= 2;
    }
    power
}

// The bytes of the slot of an object of this extent.
fn pad(extent: u64) -> u64
    requires { extent ≤ 2 ^ 32 }
    ensures { result ≡ output.pad extent }
{
    let power = power_above(extent);
    if power <= extent + 32 {
        power
    } else {
        (extent + 31) / 32 * 32
    }
}

// The name of a combined variable.
pub fn group_name(alloc: Global, group: usize) -> Result<Text, Memory>
    ensures { IfOk result (λ name. name ≡ output.group_name group) }
{
    let mut name = Text::copy(alloc, b".ltt.gv.")?;
    let mut digits = Buffer::new();
    name.extend(digits.format(group).as_bytes())?;
    Ok(name)
}

// `[count x iN]`
fn array(alloc: Global, count: u64, width: Width) -> Result<Ty, Memory>
    ensures { IfOk result (λ array. array ≡ Ty.Array count (Ty.Int width)) }
{
    Ok(Ty::Array(count, Boxed::new(alloc, Ty::Int(width))?))
}

// The type of the combined variable of an object of `count` words, with so many bytes behind it.
fn slot_type(alloc: Global, count: u64, gap: u64) -> Result<Ty, Memory>
    ensures { IfOk result (λ slot. slot ≡ Ty.Struct (spec.words_type count ∷ output.gap_types gap)) }
{
    let mut parts = one(alloc, array(alloc, count, Width::W64)?)?;
    if gap > 0 {
        parts.append(one(alloc, array(alloc, gap, Width::W8)?)?)?;
    }
    Ok(Ty::Struct(parts))
}

// The bytes of a variable, and one more where its entry stands at its end.
fn extent(variable: &Variable) -> u64
    requires { variable.now.count ≤ 1000 }
    ensures { result ≡ (if nat_le (variable.now.count * 8) variable.now.offset then variable.now.count * 8 + 1 else variable.now.count * 8) }
{
    let size = variable.count * 8;
    if size <= variable.offset {
        size + 1
    } else {
        size
    }
}

// The bytes behind a variable in its slot.
fn gap(variable: &Variable) -> u64
    requires { variable.now.count ≤ 1000 }
    ensures { result ≡ output.gap_of (spec.variable_of variable.now) }
{
    pad(extent(variable)) - variable.count * 8
}

// The combined variable of one variable.
fn combined(alloc: Global, group: usize, variable: &Variable) -> Result<Var, Memory>
    requires { variable.now.count ≤ 1000 }
    ensures { IfOk result (λ combined. combined ≡ output.combined group (spec.variable_of variable.now)) }
{
    let gap = gap(variable);
    Ok(Var {
        place: Place {
            file: 0,
            line: 0,
            column: 0,
        },
        name: group_name(alloc, group)?,
        linkage: Linkage::Private,
        constant: true,
        ty: slot_type(alloc, variable.count, gap)?,
        init: Some(Const::Zero(slot_type(alloc, variable.count, gap)?)),
        align: 8,
        entries: List::new(alloc),
        visibility: 0,
    })
}

// The combined variables of these variables, in their order.
fn combined_variables(alloc: Global, variables: &[Variable]) -> Result<List<Var>, Memory>
    requires { spec.HaveCounts variables.now }
    ensures { IfOk result (λ list. list ≡ output.combined_from 0 (map spec.variable_of variables.now)) }
{
    let mut list = List::new(alloc);
    for (group, variable) in variables.iter().enumerate() {
        match list.push(combined(alloc, group, variable)?) {
            Ok(()) => {}
            Err(_) => return Err(Memory),
        }
    }
    Ok(list)
}
