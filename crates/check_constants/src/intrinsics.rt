// The intrinsics that a file may use.
ghost use Rattle.std.specs.Prelude.{◌≡◌, IfOk};
ghost use Rattle.std.specs.Option.{option_copied};
ghost use Rattle.check_constants.specs.Intrinsics as spec;

use check_names::{Context, Flaw, Space, is_intrinsic, named_when};
use ir_values::{Form, Unit};
use ltt_base::{Code, Memory, Placed};
use std::alloc::Global;

/// An intrinsic that a file may use.
///
/// `Test` is `llvm.type.test`, `CheckedLoad` `llvm.type.checked.load`, `Assume` `llvm.assume`, `Trap` `llvm.trap`, `CodedTrap`
/// `llvm.ubsantrap` and `Rotate` `llvm.fshr.i64`.
///
/// Source: LLVM Language Reference, "Intrinsic Functions".
#[derive(Clone, Copy)]
pub enum Intrinsic {
    Test,
    CheckedLoad,
    Assume,
    Trap,
    CodedTrap,
    Rotate,
}

fn source_intrinsic(name: &[u8]) -> Option<Intrinsic>
    ensures { result ≡ spec.source_intrinsic name.now }
{
    if name == b"llvm.type.test".as_slice() {
        Some(Intrinsic::Test)
    } else if name == b"llvm.type.checked.load".as_slice() {
        Some(Intrinsic::CheckedLoad)
    } else if name == b"llvm.assume".as_slice() {
        Some(Intrinsic::Assume)
    } else {
        None
    }
}

fn output_intrinsic(name: &[u8]) -> Option<Intrinsic>
    ensures { result ≡ spec.output_intrinsic name.now }
{
    if name == b"llvm.fshr.i64".as_slice() {
        Some(Intrinsic::Rotate)
    } else {
        None
    }
}

/// The intrinsic of a name. `None`: an output or a source may use none of this name.
pub fn intrinsic_of(output: bool, name: &[u8]) -> Option<Intrinsic>
    ensures { result ≡ spec.intrinsic_of output name.now }
{
    if name == b"llvm.trap".as_slice() {
        Some(Intrinsic::Trap)
    } else if name == b"llvm.ubsantrap".as_slice() {
        Some(Intrinsic::CodedTrap)
    } else if output {
        output_intrinsic(name)
    } else {
        source_intrinsic(name)
    }
}

fn is_declaration(form: &Form) -> bool
    ensures { result ≡ spec.is_declaration form.now }
{
    match form {
        Form::DeclareForm { .. } => true,
        _ => false,
    }
}

fn declares(unit: Option<&Placed<Unit>>) -> bool
    ensures { result ≡ spec.declares (option_copied unit.entry) }
{
    match unit {
        Some(unit) => is_declaration(&unit.value.form),
        None => false,
    }
}

/// Whether a name is that of an intrinsic: the first unit that defines it is a declaration.
pub fn is_declared_intrinsic(context: &Context<'_>, name: &[u8]) -> bool
    ensures { result ≡ spec.is_declared_intrinsic context.now.units name.now }
{
    is_intrinsic(name) && declares(context.first_unit(Space::Globals, name))
}

/// Whether a name is that of an intrinsic that the file may not use.
pub fn is_left_intrinsic(context: &Context<'_>, name: &[u8]) -> bool
    ensures { result ≡ spec.is_left_intrinsic context.now.output context.now.units name.now }
{
    is_declared_intrinsic(context, name) && intrinsic_of(context.is_output(), name).is_none()
}

/// An intrinsic that stands where it isn't called directly.
pub fn uncalled_flaw(
    alloc: Global,
    context: &Context<'_>,
    name: &[u8],
) -> Result<Option<Flaw>, Memory>
    ensures { IfOk result (λ flaw. flaw ≡ spec.uncalled_flaw context.now.units name.now) }
{
    let broken = is_declared_intrinsic(context, name);
    named_when(alloc, broken, Code::E07, b"@", name)
}
