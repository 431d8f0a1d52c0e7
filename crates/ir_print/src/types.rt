// Types.
ghost use Rattle.std.specs.Prelude.{◌≡◌, ◌++◌, map, codes};
ghost use Rattle.ir_print.specs.Pieces.{commas};
ghost use Rattle.ir_print.specs.Printing.{comma_at, space_at};
ghost use Rattle.ir_names.specs.Puts.{Puts};
ghost use Rattle.ir_print.specs.Types as Spec;

use ir_names::{Printer, put_decimal, put_local};
use ir_values::{Ty, Width};

/// Prints a type.
///
/// Source: LLVM Language Reference, "Type System".
#[cycle(types)]
pub fn put_ty<P: Printer>(line: &mut P, ty: &Ty)
    ensures { Puts (P.state line.old) (P.state line.new) (Spec.ty_text ty.now) }
{
    match ty {
        Ty::Void => line.put(b"void"),
        Ty::Int(width) => put_width(line, *width),
        Ty::Ptr => line.put(b"ptr"),
        Ty::Pair => put_pair(line),
        Ty::Array(count, part) => put_array(line, *count, part.get()),
        Ty::Struct(parts) => put_struct(line, parts.items()),
        Ty::Named(name) => put_local(line, name.bytes()),
        Ty::Left(text) => line.put(text.bytes()),
    }
}

/// Prints the type of what a checked load gives.
#[tactic(auto, unfolding(crate::specs::Types::pair_text))]
pub fn put_pair<P: Printer>(line: &mut P)
    ensures { Puts (P.state line.old) (P.state line.new) (Spec.pair_text) }
{
    line.put(b"{ ptr, i1 }")
}

#[cycle(types)]
fn put_array<P: Printer>(line: &mut P, count: u64, part: &Ty)
    ensures { Puts (P.state line.old) (P.state line.new) (Spec.array_ty_text count (Spec.ty_text part.now)) }
{
    line.put(b"[");
    put_decimal(line, count);
    line.put(b" x ");
    put_ty(line, part);
    line.put(b"]")
}

#[cycle(types)]
fn put_struct<P: Printer>(line: &mut P, parts: &[Ty])
    ensures { Puts (P.state line.old) (P.state line.new) (Spec.struct_ty_text (map Spec.ty_text parts.now)) }
{
    if parts.is_empty() {
        line.put(b"{}")
    } else {
        put_members(line, parts)
    }
}

#[cycle(types)]
fn put_members<P: Printer>(line: &mut P, parts: &[Ty])
    ensures { Puts (P.state line.old) (P.state line.new) (codes "{ " ++ commas (map Spec.ty_text parts.now) ++ codes " }") }
{
    line.put(b"{ ");
    put_types(line, parts);
    line.put(b" }")
}

/// Prints types with commas between them.
#[cycle(types)]
pub fn put_types<P: Printer>(line: &mut P, types: &[Ty])
    ensures { Puts (P.state line.old) (P.state line.new) (commas (map Spec.ty_text types.now)) }
{
    for (at, ty) in types.iter().enumerate() {
        put_comma(line, at);
        put_ty(line, ty);
    }
}

/// Prints the comma before the item at a place, where it isn't the first.
pub fn put_comma<P: Printer>(line: &mut P, at: usize)
    ensures { Puts (P.state line.old) (P.state line.new) (comma_at at) }
{
    if at == 0 {
        line.put(b"")
    } else {
        line.put(b", ")
    }
}

/// Prints the space before the item at a place, where it isn't the first.
pub fn put_space<P: Printer>(line: &mut P, at: usize)
    ensures { Puts (P.state line.old) (P.state line.new) (space_at at) }
{
    if at == 0 {
        line.put(b"")
    } else {
        line.put(b" ")
    }
}

/// Prints an integer type.
pub fn put_width<P: Printer>(line: &mut P, width: Width)
    ensures { Puts (P.state line.old) (P.state line.new) (Spec.width_text width) }
{
    match width {
        Width::W1 => line.put(b"i1"),
        Width::W8 => line.put(b"i8"),
        Width::W16 => line.put(b"i16"),
        Width::W32 => line.put(b"i32"),
        Width::W64 => line.put(b"i64"),
    }
}
