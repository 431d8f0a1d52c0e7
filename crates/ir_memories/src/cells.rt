ghost use Rattle.std.specs.Prelude.{◌≡◌, ◌+◌, ◌*◌, ◌^◌, ◌<◌, ◌≤◌, length, IfSome};
ghost use Rattle.std.specs.Option.{option_copied};
ghost use Rattle.ir_numbers.specs.Layout.{width_bytes};
ghost use Rattle.ir_memories.specs.Cells as held;

use crate::symbolic::SPtr;
use crate::values::Value;
use ir_numbers::bits;
use ir_values::{Ty, Width};
use ltt_base::List;
use type_metadata::is_same_object;

/// A byte, or byte k of a pointer.
#[derive(Clone, Copy)]
pub enum Cell {
    Byte(u8),
    Part(SPtr, u8),
}

/// The bytes that an integer takes.
pub(crate) fn bytes_in(width: Width) -> usize
    ensures value { result ≡ width_bytes width }
    ensures most { result ≤ 8 }
{
    (bits(width) as usize + 7) / 8
}

/// The number that bytes write, the lowest first.
pub(crate) fn number(cells: &[Cell]) -> Option<u64>
    requires { length cells.now ≤ 8 }
    ensures value { result ≡ held.number cells.now }
    ensures below { IfSome result (λ n. n < 256 ^ length cells.now) }
{
    match cells {
        [] => Some(0),
        [Cell::Byte(byte), rest @ ..] => {
            let high = number(rest)?;
            Some(joined(*byte, high))
        }
        _ => None,
    }
}

fn joined(low: u8, high: u64) -> u64
    requires { high < 2 ^ 56 }
    ensures { result ≡ low + 256 * high }
{
    low as u64 + 256 * high
}

fn is_same_pointer(p: SPtr, q: SPtr) -> bool
    ensures { result ≡ held.same_pointer p q }
{
    match (p, q) {
        (SPtr::Null, SPtr::Null) => true,
        (SPtr::At(one, offset), SPtr::At(other, other_offset)) => {
            is_same_object(one, other) && offset == other_offset
        }
        _ => false,
    }
}

fn is_part(p: SPtr, k: usize, cell: Cell) -> bool
    ensures { result ≡ held.is_part p k cell }
{
    match cell {
        Cell::Byte(_) => false,
        Cell::Part(q, j) => is_same_pointer(q, p) && j as usize == k,
    }
}

fn are_parts(p: SPtr, cells: &[Cell]) -> bool
    ensures { result ≡ held.are_parts p 0 cells.now }
{
    for k in 0..cells.len() {
        if !is_part(p, k, cells[k]) {
            return false;
        }
    }
    true
}

fn null_if_zero(n: Option<u64>) -> Option<SPtr>
    ensures { result ≡ held.null_if_zero n }
{
    match n {
        Some(0) => Some(SPtr::Null),
        _ => None,
    }
}

fn pointer(cells: &[Cell]) -> Option<SPtr>
    requires { length cells.now ≤ 8 }
    ensures { result ≡ held.pointer cells.now }
{
    match cells {
        [] => None,
        [Cell::Byte(_), ..] => null_if_zero(number(cells)),
        [Cell::Part(p, _), ..] => { if are_parts(*p, cells) { Some(*p) } else { None } }
    }
}

pub(crate) fn window(cells: &[Cell], at: u64, n: usize) -> Option<&[Cell]>
    requires { n ≤ 8 }
    ensures value { option_copied result ≡ held.window cells.now at n }
    ensures most { IfSome result (λ part. length part.now ≤ 8) }
{
    let len = cells.len() as u64;
    if at > len || n as u64 > len - at {
        return None;
    }
    Some(&cells[at as usize..at as usize + n])
}

pub(crate) fn low_part(width: Width, n: u64) -> u64
    ensures { result ≡ held.low_part width n }
{
    match width {
        Width::W1 => n % 2,
        Width::W8 => n % 256,
        Width::W16 => n % 65_536,
        Width::W32 => n % 4_294_967_296,
        Width::W64 => n,
    }
}

/// The value of a type that stands at a place.
pub(crate) fn read(ty: &Ty, cells: &[Cell], at: u64) -> Option<Value<SPtr>>
    ensures { result ≡ held.read ty.now cells.now at }
{
    match ty {
        Ty::Int(width) => {
            let part = window(cells, at, bytes_in(*width))?;
            let n = number(part)?;
            Some(Value::Int(*width, low_part(*width, n)))
        }
        Ty::Ptr => {
            let part = window(cells, at, 8)?;
            Some(Value::Ptr(pointer(part)?))
        }
        _ => None,
    }
}

/// How many cells a value takes.
pub(crate) fn cells_in(v: &Value<SPtr>) -> usize
    ensures value { result ≡ held.cells_in v.now }
    ensures most { result ≤ 8 }
{
    match v {
        Value::Int(width, _) => bytes_in(*width),
        Value::Ptr(_) => 8,
        Value::Pair(_, _) => 0,
    }
}

pub(crate) fn is_stored(v: &Value<SPtr>) -> bool
    ensures { result ≡ held.is_stored v.now }
{
    match v {
        Value::Pair(_, _) => false,
        _ => true,
    }
}

/// Cell k of a value.
pub(crate) fn cell_at(v: &Value<SPtr>, k: usize) -> Cell
    requires { k < 8 }
    ensures { result ≡ held.cell_at v.now k }
{
    match v {
        Value::Int(_, n) => Cell::Byte((*n >> (8 * k as u32) & 255) as u8),
        Value::Ptr(p) => pointer_cell(*p, k),
        Value::Pair(_, _) => Cell::Byte(0),
    }
}

fn pointer_cell(p: SPtr, k: usize) -> Cell
    requires { k < 8 }
    ensures { result ≡ held.pointer_cell p k }
{
    match p {
        SPtr::Null => Cell::Byte(0),
        SPtr::At(_, _) => Cell::Part(p, k as u8),
    }
}

/// Puts a value at a place.
pub(crate) fn write(cells: &mut List<Cell>, at: usize, v: &Value<SPtr>)
    requires { at + held.cells_in v.now ≤ length cells.old }
    ensures { cells.new ≡ held.written at (held.cells_in v.now) v.now 0 cells.old }
{
    let _len = cells.len();
    for k in 0..cells_in(v) {
        cells.set(at + k, cell_at(v, k));
    }
}
