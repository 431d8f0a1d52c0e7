ghost use Rattle.std.specs.Prelude.{◌≡◌, ◌+◌, ◌^◌, ◌<◌, OnSome};
ghost use Rattle.std.specs.Option.{option_copied};
ghost use Rattle.ir_meaning.specs.Places.{function_at, instruction_at};

use ir_values::{Func, Inst, Module};

/// The function of a number, in the module of a file.
pub fn function_at(modules: &[Module], file: u32, func: u32) -> Option<&Func>
    ensures { option_copied result ≡ function_at modules.now file func }
{
    if file == 0 {
        return None;
    }
    let module = modules.get(file as usize - 1)?;
    module.funcs.get(func as usize)
}

/// The instruction at a place of a function.
pub fn instruction_at(
    modules: &[Module],
    file: u32,
    func: u32,
    block: usize,
    place: usize,
) -> Option<&Inst>
    ensures value { option_copied result ≡ instruction_at modules.now file func block place }
    ensures bound { OnSome result (place + 1 < 2 ^ 64) }
{
    let function = function_at(modules, file, func)?;
    let block = function.blocks.get(block)?;
    block.insts.items().get(place)
}
