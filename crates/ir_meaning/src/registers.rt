ghost use Rattle.std.specs.Prelude.{◌≡◌, [], ◌∷◌, ◌++◌, OnOk, OnErr};
ghost use Rattle.std.specs.List.{position, position_or_len};
ghost use Rattle.ir_meaning.specs.Registers.{is_named, get, put};

use crate::states::Register;
use ir_memories::{NoMemory, Value};
use ltt_base::{List, Text};
use std::alloc::Global;

/// What the register of a name holds.
pub fn get<P: Copy>(registers: &List<Register<P>>, name: &[u8]) -> Option<Value<P>>
    ensures { result ≡ get registers.now name.now }
{
    let items = registers.items();
    for at in 0..items.len() {
        let register = &items[at];
        if register.name.bytes() == name {
            return Some(register.value);
        }
    }
    None
}

/// The place of the register of a name, the number of registers if there is none.
#[tactic(auto, using(ltt_base::proofs::MemoryLemmas::placed))]
fn place_of<P: Copy>(registers: &[Register<P>], name: &[u8]) -> usize
    ensures { result ≡ position_or_len (is_named name.now) registers.now }
{
    match find(registers, name) {
        Some(place) => place,
        None => registers.len(),
    }
}

fn find<P: Copy>(registers: &[Register<P>], name: &[u8]) -> Option<usize>
    ensures { result ≡ position (is_named name.now) registers.now }
{
    registers
        .iter()
        .position(|register| register.name.bytes() == name)
}

/// Puts a value into the register of a name.
#[tactic(auto, using(crate::proofs::RegisterLemmas::put_found, crate::proofs::RegisterLemmas::put_added))]
pub fn put<P: Copy + Drop>(
    alloc: Global,
    registers: &mut List<Register<P>>,
    name: &[u8],
    value: Value<P>,
) -> Result<(), NoMemory>
    ensures value { OnOk result (registers.new ≡ put registers.old name.now value) }
    ensures same { OnErr result (registers.new ≡ registers.old) }
{
    let place = place_of(registers.items(), name);
    if place < registers.len() {
        registers.at_mut(place).value = value;
        return Ok(());
    }
    added(alloc, registers, name, value)
}

/// Adds a register.
fn added<P: Copy + Drop>(
    alloc: Global,
    registers: &mut List<Register<P>>,
    name: &[u8],
    value: Value<P>,
) -> Result<(), NoMemory>
    ensures value { OnOk result (registers.new ≡ registers.old ++ record { name = name.now; value = value } ∷ []) }
    ensures same { OnErr result (registers.new ≡ registers.old) }
{
    let Ok(name) = Text::copy(alloc, name) else {
        return Err(NoMemory);
    };
    match registers.add(Register { name, value }) {
        Ok(()) => Ok(()),
        Err(_) => Err(NoMemory),
    }
}
