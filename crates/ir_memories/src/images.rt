// The cells that an initialiser gives its variable.
ghost use Rattle.std.specs.Prelude.{◌≡◌, ℕ, List, ◌++◌, ◌≤◌, ◌<◌, [], length, map, IfOk, OnOk};
ghost use Rattle.ir_memories.specs.Cells.{cells_from, cells_in};
ghost use Rattle.ir_memories.specs.declared.values.Value.{Value};
ghost use Rattle.ir_memories.specs.declared.symbolic.SPtr.{SPtr};
ghost use Rattle.ir_memories.specs.Images as images;

use crate::cells::{Cell, cell_at, cells_in};
use crate::symbolic::{SPtr, pointer_to};
use crate::values::Value;
use ir_numbers::{align_of, is_laid_out, size_of};
use ir_values::{Const, Ty};
use ltt_base::{List, Memory};
use std::alloc::Global;
use type_metadata::Listing;

/// The cells of a constant, and the alignment that it has in a struct.
#[derive(Drop)]
pub struct Image {
    pub align: u64,
    pub cells: List<Cell>,
}

/// What stands for the address of a name.
pub(crate) trait Addresses {
    ghost gives: { Self → List ℕ → ℕ → Value SPtr };

    fn address(&self, name: &[u8], offset: u64) -> Value<SPtr>
        ensures { result ≡ gives self.now name.now offset };
}

/// The addresses in a file of the source.
#[derive(Clone, Copy)]
pub(crate) struct Source<'a> {
    pub(crate) items: &'a Listing,
    pub(crate) file: u32,
}

impl<'a> Addresses for Source<'a> {
    ghost gives = { λ source. images.source_address source.items.now source.file };

    fn address(&self, name: &[u8], offset: u64) -> Value<SPtr> {
        Value::Ptr(pointer_to(self.items, self.file, name, offset))
    }
}

/// The cells of a variable with this initialiser: none where it is declared.
pub(crate) fn cells_of<N: Addresses>(
    alloc: Global,
    names: &N,
    init: &Option<Const>,
) -> Result<List<Cell>, Memory>
    ensures { IfOk result (λ cells. cells ≡ images.cells_of (N.gives names.now) init.now) }
{
    match init {
        Some(value) => {
            let Image { align: _, cells } = image_of(alloc, names, value)?;
            Ok(cells)
        }
        None => Ok(List::new(alloc)),
    }
}

/// The image of a constant.
#[cycle(images)]
pub(crate) fn image_of<N: Addresses>(
    alloc: Global,
    names: &N,
    value: &Const,
) -> Result<Image, Memory>
    ensures value { IfOk result (λ it. it ≡ images.image (N.gives names.now) value.now) }
    ensures align { IfOk result (λ it. 1 ≤ it.align) }
{
    match value {
        Const::Int(width, n) => of_value(alloc, &Value::Int(*width, *n)),
        Const::Null => of_value(alloc, &Value::Ptr(SPtr::Null)),
        Const::Addr(name, offset) => of_value(alloc, &names.address(name.bytes(), *offset)),
        Const::Number(name, offset) => of_value(alloc, &names.address(name.bytes(), *offset)),
        Const::Zero(ty) => zero_image(alloc, ty),
        Const::Array(ty, parts) => {
            let cells = joined(alloc, names, parts.items())?;
            Ok(Image {
                align: align_in(ty),
                cells,
            })
        }
        Const::Struct(parts) => struct_image(alloc, names, parts.items()),
        Const::Bytes(bytes) => bytes_image(alloc, bytes.bytes()),
        _ => Ok(empty(alloc)),
    }
}

/// The cells of parts, without gaps.
#[cycle(images)]
fn joined<N: Addresses>(alloc: Global, names: &N, parts: &[Const]) -> Result<List<Cell>, Memory>
    ensures { IfOk result (λ cells. cells ≡ images.joined [] (map (images.image (N.gives names.now)) parts.now)) }
{
    let mut cells = List::new(alloc);
    for part in parts {
        let Image {
            align: _,
            cells: more,
        } = image_of(alloc, names, part)?;
        cells.append(more)?;
    }
    Ok(cells)
}

#[cycle(images)]
fn struct_image<N: Addresses>(alloc: Global, names: &N, parts: &[Const]) -> Result<Image, Memory>
    ensures value { IfOk result (λ it. it ≡ images.laid 1 [] (map (images.image (N.gives names.now)) parts.now)) }
    ensures align { IfOk result (λ it. 1 ≤ it.align) }
{
    let mut cells = List::new(alloc);
    let mut align = 1u64;
    for part in parts {
        let Image {
            align: part_align,
            cells: more,
        } = image_of(alloc, names, part)?;
        pad(&mut cells, part_align)?;
        cells.append(more)?;
        align = align.max(part_align);
    }
    pad(&mut cells, align)?;
    Ok(Image { align, cells })
}

fn empty(alloc: Global) -> Image
    ensures { result ≡ images.empty }
{
    Image {
        align: 1,
        cells: List::new(alloc),
    }
}

fn of_value(alloc: Global, v: &Value<SPtr>) -> Result<Image, Memory>
    ensures value { IfOk result (λ it. it ≡ images.of_value v.now) }
    ensures align { IfOk result (λ it. 1 ≤ it.align) }
{
    let mut cells = List::new(alloc);
    for k in 0..cells_in(v) {
        cells.add(cell_at(v, k))?;
    }
    Ok(Image {
        align: (cells_in(v) as u64).max(1),
        cells,
    })
}

fn align_in(ty: &Ty) -> u64
    ensures value { result ≡ images.align_in ty.now }
    ensures least { 1 ≤ result }
{
    if is_laid_out(ty) { align_of(ty) } else { 1 }
}

fn zero_image(alloc: Global, ty: &Ty) -> Result<Image, Memory>
    ensures value { IfOk result (λ it. it ≡ images.zero_image ty.now) }
    ensures align { IfOk result (λ it. 1 ≤ it.align) }
{
    if !is_laid_out(ty) {
        return Ok(empty(alloc));
    }
    let mut cells = List::new(alloc);
    add_zeros(&mut cells, size_of(ty))?;
    Ok(Image {
        align: align_of(ty),
        cells,
    })
}

fn bytes_image(alloc: Global, bytes: &[u8]) -> Result<Image, Memory>
    ensures value { IfOk result (λ it. it ≡ images.bytes_image bytes.now) }
    ensures align { IfOk result (λ it. 1 ≤ it.align) }
{
    let mut cells = List::new(alloc);
    for byte in bytes {
        cells.add(Cell::Byte(*byte))?;
    }
    Ok(Image { align: 1, cells })
}

fn add_zeros(cells: &mut List<Cell>, count: u64) -> Result<(), Memory>
    ensures { OnOk result (cells.new ≡ cells.old ++ images.zeros count) }
{
    for _added in 0..count {
        cells.add(Cell::Byte(0))?;
    }
    Ok(())
}

/// Adds zeros up to the next multiple of an alignment.
fn pad(cells: &mut List<Cell>, align: u64) -> Result<(), Memory>
    requires { 1 ≤ align }
    ensures { OnOk result (cells.new ≡ images.padded cells.old align) }
{
    let past = cells.len() as u64 % align;
    add_zeros(cells, (align - past) % align)
}
