ghost use Rattle.std.specs.Prelude.{◌≡◌, ◌-◌, ◌≤◌, ◌&&◌, nat_le, nat_lt, slice_get, IfOk, IfSome, MatchBool, Some, None};
ghost use Rattle.std.specs.Option.{option_copied};
ghost use Rattle.ir_memories.specs.Numeric as numbers;

use crate::cells::{Cell, bytes_in, cells_in, is_stored, low_part, number, window, write};
use crate::memory::Memory;
use crate::symbolic::SPtr;
use crate::values::{Goal, NoMemory, Value};
use ir_values::{Ty, TypeId, Width};
use ltt_base::{Copied, List, Text};
use std::alloc::Global;

/// An object of an output: its name and address. A call of the address plus 8k leads to goal k of `leads`.
#[derive(Drop)]
pub struct Row {
    pub name: Text,
    pub base: u64,
    pub constant: bool,
    pub leads: List<Goal>,
}

/// The memory of an output: its objects in printed order, and the cells of its variables, which come first.
#[derive(Drop)]
pub struct Numeric {
    pub rows: List<Row>,
    pub cells: List<List<Cell>>,
}

/// The address of the first row of this name, 0 without one.
pub(crate) fn base_of(name: &[u8], rows: &[Row]) -> u64
    ensures { result ≡ numbers.base_of name.now rows.now }
{
    for row in rows {
        if row.name.bytes() == name {
            return row.base;
        }
    }
    0
}

fn lead_in(a: u64, row: &Row) -> Option<&Goal>
    ensures { option_copied result ≡ numbers.lead_in a row.now }
{
    if a < row.base {
        return None;
    }
    let distance = a - row.base;
    if distance % 8 == 0 {
        row.leads.items().get((distance / 8) as usize)
    } else {
        None
    }
}

fn lead_of(a: u64, rows: &[Row]) -> Option<&Goal>
    ensures { option_copied result ≡ numbers.lead_of a rows.now }
{
    for row in rows {
        match lead_in(a, row) {
            Some(goal) => return Some(goal),
            None => {}
        }
    }
    None
}

fn copied(alloc: Global, goal: &Goal) -> Result<Goal, NoMemory>
    ensures { IfOk result (λ copy. copy ≡ goal.now) }
{
    match goal {
        Goal::Defined(object) => Ok(Goal::Defined(*object)),
        Goal::External(name) => match name.copied(alloc) {
            Ok(name) => Ok(Goal::External(name)),
            Err(_) => Err(NoMemory),
        },
    }
}

fn base_at(rows: &[Row], at: usize) -> u64
    ensures { result ≡ numbers.base_at rows.now at }
{
    match rows.get(at) {
        Some(row) => row.base,
        None => 0,
    }
}

fn is_constant(rows: &[Row], at: usize) -> bool
    ensures { result ≡ numbers.row_is_constant (slice_get rows.now at) }
{
    match rows.get(at) {
        Some(row) => row.constant,
        None => true,
    }
}

fn covers(base: u64, a: u64, len: usize) -> bool
    ensures { result ≡ (nat_le base a && nat_lt (a - base) len) }
{
    if a < base {
        return false;
    }
    a - base < len as u64
}

/// The number of the variable whose cells an address is among.
fn covering(a: u64, rows: &[Row], cells: &[List<Cell>]) -> Option<usize>
    ensures value { result ≡ numbers.covering a 0 rows.now cells.now }
    ensures above { IfSome result (λ at. numbers.base_at rows.now at ≤ a) }
{
    for at in 0..cells.len() {
        if covers(base_at(rows, at), a, cells[at].len()) {
            return Some(at);
        }
    }
    None
}

fn integer_at(width: Width, cells: &[Cell], at: u64) -> Option<u64>
    ensures { result ≡ numbers.integer_at width cells.now at }
{
    let part = window(cells, at, bytes_in(width))?;
    let n = number(part)?;
    Some(low_part(width, n))
}

fn read(ty: &Ty, cells: &[Cell], at: u64) -> Option<Value<u64>>
    ensures { result ≡ numbers.read_in ty.now at (Some cells.now) }
{
    match ty {
        Ty::Int(width) => Some(Value::Int(*width, integer_at(*width, cells, at)?)),
        Ty::Ptr => Some(Value::Ptr(integer_at(Width::W64, cells, at)?)),
        _ => None,
    }
}

/// A pointer is an integer of 64 bits in memory.
fn in_memory(v: &Value<u64>) -> Value<SPtr>
    ensures { result ≡ numbers.in_memory v.now }
{
    match v {
        Value::Int(width, n) => Value::Int(*width, *n),
        Value::Ptr(a) => Value::Int(Width::W64, *a),
        Value::Pair(_, flag) => Value::Pair(SPtr::Null, *flag),
    }
}

fn may_store(constant: bool, v: &Value<SPtr>, offset: u64, cells: &[Cell]) -> bool
    ensures { result ≡ numbers.may_store constant v.now offset cells.now }
{
    let len = cells.len() as u64;
    if constant || !is_stored(v) || offset > len {
        return false;
    }
    cells_in(v) as u64 <= len - offset
}

impl Numeric {
    /// Puts a value at an address among the cells of a variable.
    fn put(&mut self, at: usize, v: &Value<SPtr>, a: u64) -> bool
        requires { numbers.base_at self.old.rows at ≤ a }
        ensures { MatchBool result (numbers.store_in self.old v.now a at (slice_get self.old.cells at) ≡ Some self.new)
            ((numbers.store_in self.old v.now a at (slice_get self.old.cells at) ≡ None) × (self.new ≡ self.old)) }
    {
        let offset = a - base_at(self.rows.items(), at);
        let constant = is_constant(self.rows.items(), at);
        match self.cells.get(at) {
            Some(cells) => {
                if !may_store(constant, v, offset, cells.items()) {
                    return false;
                }
            }
            None => return false,
        }
        let cells = self.cells.at_mut(at);
        write(cells, offset as usize, v);
        true
    }
}

impl Memory for Numeric {
    type Pointer = u64;

    ghost use Rattle.ir_memories.specs.Numeric.{numeric};

    ghost model = { numeric };

    fn null(&self) -> u64 {
        0
    }

    fn address(&self, _file: u32, name: &[u8], offset: u64) -> u64 {
        base_of(name, self.rows.items()).wrapping_add(offset)
    }

    fn moved(&self, p: u64, by: u64) -> u64 {
        p.wrapping_add(by)
    }

    fn load(&self, ty: &Ty, p: u64) -> Option<Value<u64>> {
        match covering(p, self.rows.items(), self.cells.items()) {
            Some(at) => match self.cells.get(at) {
                Some(cells) => read(ty, cells.items(), p - base_at(self.rows.items(), at)),
                None => None,
            },
            None => None,
        }
    }

    fn store(&mut self, v: &Value<u64>, p: u64) -> bool
        ensures { MatchBool result (numbers.store self.old v.now p ≡ Some self.new)
            ((numbers.store self.old v.now p ≡ None) × (self.new ≡ self.old)) }
    {
        match covering(p, self.rows.items(), self.cells.items()) {
            Some(at) => self.put(at, &in_memory(v), p),
            None => false,
        }
    }

    fn equal(&self, a: u64, b: u64) -> Option<bool> {
        Some(a == b)
    }

    fn test(&self, _id: &TypeId, _p: u64) -> Option<bool> {
        None
    }

    fn goal(&self, alloc: Global, p: u64) -> Result<Option<Goal>, NoMemory> {
        match lead_of(p, self.rows.items()) {
            Some(goal) => Ok(Some(copied(alloc, goal)?)),
            None => Ok(None),
        }
    }

    fn number(&self, p: u64) -> Option<u64> {
        Some(p)
    }
}
