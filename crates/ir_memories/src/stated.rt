// The stated placement of an output.
ghost use Rattle.std.specs.Prelude.{◌≡◌, ◌++◌, ◌≤◌, ◌<◌, ◌^◌, IfOk, OnOk, All, length, map};
ghost use Rattle.ir_numbers.specs.Layout.{IsLaidOut};
ghost use Rattle.ir_memories.specs.Placement.{of_variable, of_table, of_function};
ghost use Rattle.ir_memories.specs.Stated as placement;

use crate::placing::is_external;
use crate::values::NoMemory;
use ir_numbers::size_of;
use ir_values::{Func, Jump, Module, Var};
use ltt_base::{List, Memory};
use std::alloc::Global;

/// What an object takes: its bytes, and the alignment of its address.
#[derive(Clone, Copy)]
pub struct Room {
    pub size: u64,
    pub align: u64,
}

/// The stated placement: variables, jump tables, external functions and functions, each at the next multiple of
/// its alignment from `base` on, in printed order.
pub fn place_from(alloc: Global, output: &Module, base: u64) -> Result<List<u64>, NoMemory>
    requires { placement.IsPlaceable output.now base }
    ensures { IfOk result (λ at. at ≡ placement.stated output.now base) }
{
    match placed(alloc, output, base) {
        Ok(at) => Ok(at),
        Err(Memory) => Err(NoMemory),
    }
}

fn placed(alloc: Global, output: &Module, base: u64) -> Result<List<u64>, Memory>
    requires { placement.IsPlaceable output.now base }
    ensures { IfOk result (λ at. at ≡ placement.stated output.now base) }
{
    let rooms = rooms_of(alloc, output)?;
    place(alloc, rooms.items(), base)
}

fn place(alloc: Global, rooms: &[Room], base: u64) -> Result<List<u64>, Memory>
    requires aligned { All (λ room. 1 ≤ room.align) rooms.now }
    requires fits { placement.end_from base rooms.now < 2 ^ 64 }
    ensures { IfOk result (λ at. at ≡ placement.stated_from base rooms.now) }
{
    let mut at = List::new(alloc);
    let mut end = base;
    for room in rooms {
        let start = end.next_multiple_of(room.align);
        at.add(start)?;
        end = start + room.size;
    }
    Ok(at)
}

fn rooms_of(alloc: Global, output: &Module) -> Result<List<Room>, Memory>
    requires laid { All (λ v. IsLaidOut v.ty) output.now.vars }
    requires tables { All (λ t. length t.funcs ≤ 2 ^ 32) output.now.jumps }
    ensures { IfOk result (λ rooms. rooms ≡ placement.rooms output.now) }
{
    let mut rooms = variable_rooms(alloc, output.vars.items())?;
    let mut more = table_rooms(alloc, output.jumps.items())?;
    let mut functions = function_rooms(alloc, output.funcs.items(), true)?;
    functions.append(function_rooms(alloc, output.funcs.items(), false)?)?;
    more.append(functions)?;
    rooms.append(more)?;
    Ok(rooms)
}

fn variable_rooms(alloc: Global, variables: &[Var]) -> Result<List<Room>, Memory>
    requires { All (λ v. IsLaidOut v.ty) variables.now }
    ensures { IfOk result (λ rooms. rooms ≡ map (λ v. placement.room_of (of_variable v)) variables.now) }
{
    let mut rooms = List::new(alloc);
    for variable in variables {
        rooms.add(Room {
            size: size_of(&variable.ty).max(1),
            align: variable.align,
        })?;
    }
    Ok(rooms)
}

fn table_rooms(alloc: Global, tables: &[Jump]) -> Result<List<Room>, Memory>
    requires { All (λ t. length t.funcs ≤ 2 ^ 32) tables.now }
    ensures { IfOk result (λ rooms. rooms ≡ map (λ t. placement.room_of (of_table t)) tables.now) }
{
    let mut rooms = List::new(alloc);
    for table in tables {
        rooms.add(table_room(table))?;
    }
    Ok(rooms)
}

fn table_room(table: &Jump) -> Room
    requires { length table.now.funcs ≤ 2 ^ 32 }
    ensures { result ≡ placement.room_of (of_table table.now) }
{
    Room {
        size: (8 * table.funcs.len() as u64).max(1),
        align: 8,
    }
}

fn function_rooms(alloc: Global, functions: &[Func], external: bool) -> Result<List<Room>, Memory>
    ensures { IfOk result (λ rooms. rooms ≡ map (λ f. placement.room_of (of_function f)) (placement.functions_that external functions.now)) }
{
    let mut rooms = List::new(alloc);
    for function in functions {
        if is_external(function) == external {
            rooms.add(Room { size: 1, align: 1 })?;
        }
    }
    Ok(rooms)
}
