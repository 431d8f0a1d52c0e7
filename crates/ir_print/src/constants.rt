// Constants and operands.
ghost use Rattle.std.specs.Prelude.{◌≡◌, ◌++◌, map, codes, get_or};
ghost use Rattle.ir_values.specs.declared.types.Ty.{Ty};
ghost use Rattle.ir_values.specs.declared.types.Ty.{out-Ty};
ghost use Rattle.ir_print.specs.Constants as Spec;
ghost use Rattle.ir_names.specs.Names.{local_text};
ghost use Rattle.ir_print.specs.Pieces.{commas};
ghost use Rattle.ir_names.specs.Puts.{Puts};
ghost use Rattle.ir_print.specs.Types as Types;

use crate::types::{put_comma, put_ty};
use ir_names::{Printer, put_global, put_integer, put_local, put_quoted};
use ir_values::{Const, Operand, Ty, Width};

/// Prints a constant of a type.
#[cycle(constants)]
pub fn put_const<P: Printer>(line: &mut P, value: &Const, ty: &Ty)
    ensures { Puts (P.state line.old) (P.state line.new) (Spec.const_text ty.now value.now) }
{
    match value {
        Const::Int(width, n) => put_integer(line, *width, *n),
        Const::Null => line.put(b"null"),
        Const::Addr(name, offset) => put_address(line, name.bytes(), *offset),
        Const::Zero(_) => put_zero(line),
        Const::Array(part, parts) => put_array(line, parts.items(), part),
        Const::Struct(parts) => put_struct(line, parts.items(), parts_of(ty)),
        Const::Bytes(text) => put_bytes(line, text.bytes()),
        Const::Gep(pointee, base, indices) => {
            put_base(line, base.get(), pointee);
            put_indices(line, indices.items());
            line.put(b")")
        }
        Const::Number(name, offset) => put_number(line, name.bytes(), *offset),
        Const::Left(text) => line.put(text.bytes()),
        Const::Typed(own, part) => put_const(line, part.get(), own),
    }
}

/// Prints a constant of a type behind that type.
#[cycle(constants)]
pub fn put_typed_const<P: Printer>(line: &mut P, value: &Const, ty: &Ty)
    ensures { Puts (P.state line.old) (P.state line.new) (Spec.typed_const_text ty.now value.now) }
{
    match value {
        Const::Typed(own, part) => put_typed_const(line, part.get(), own),
        _ => put_behind(line, value, ty),
    }
}

#[cycle(constants)]
fn put_behind<P: Printer>(line: &mut P, value: &Const, ty: &Ty)
    ensures { Puts (P.state line.old) (P.state line.new) (Types.ty_text ty.now ++ codes " " ++ Spec.const_text ty.now value.now) }
{
    put_ty(line, ty);
    line.put(b" ");
    put_const(line, value, ty)
}

/// Prints an operand of a type.
pub fn put_operand<P: Printer>(line: &mut P, value: &Operand, ty: &Ty)
    ensures { Puts (P.state line.old) (P.state line.new) (Spec.operand_text ty.now value.now) }
{
    match value {
        Operand::Reg(name) => put_local(line, name.bytes()),
        Operand::Const(part) => put_const(line, part, ty),
    }
}

/// Prints an operand of a type behind that type.
#[cycle(constants)]
pub fn put_typed<P: Printer>(line: &mut P, value: &Operand, ty: &Ty)
    ensures { Puts (P.state line.old) (P.state line.new) (Spec.typed_text ty.now value.now) }
{
    match value {
        Operand::Reg(name) => put_register(line, name.bytes(), ty),
        Operand::Const(part) => put_typed_const(line, part, ty),
    }
}

fn put_register<P: Printer>(line: &mut P, name: &[u8], ty: &Ty)
    ensures { Puts (P.state line.old) (P.state line.new) (Types.ty_text ty.now ++ codes " " ++ local_text name.now) }
{
    put_ty(line, ty);
    line.put(b" ");
    put_local(line, name)
}

#[cycle(constants)]
fn put_array<P: Printer>(line: &mut P, parts: &[Const], part: &Ty)
    ensures { Puts (P.state line.old) (P.state line.new) (Spec.array_text part.now (map Spec.const_printed parts.now)) }
{
    line.put(b"[");
    put_elements(line, parts, part);
    line.put(b"]")
}

#[cycle(constants)]
fn put_elements<P: Printer>(line: &mut P, parts: &[Const], part: &Ty)
    ensures { Puts (P.state line.old) (P.state line.new) (commas (map (Spec.typed_const_text part.now) parts.now)) }
{
    for (at, value) in parts.iter().enumerate() {
        put_comma(line, at);
        put_typed_const(line, value, part);
    }
}

#[cycle(constants)]
fn put_struct<P: Printer>(line: &mut P, parts: &[Const], types: &[Ty])
    ensures { Puts (P.state line.old) (P.state line.new) (Spec.struct_text types.now (map Spec.const_printed parts.now)) }
{
    if parts.is_empty() {
        line.put(b"{}")
    } else {
        put_members(line, parts, types)
    }
}

#[cycle(constants)]
fn put_members<P: Printer>(line: &mut P, parts: &[Const], types: &[Ty])
    ensures { Puts (P.state line.old) (P.state line.new) (codes "{ " ++ commas (Spec.parts_text types.now (map Spec.const_printed parts.now)) ++ codes " }") }
{
    line.put(b"{ ");
    put_parts(line, parts, types);
    line.put(b" }")
}

#[cycle(constants)]
fn put_parts<P: Printer>(line: &mut P, parts: &[Const], types: &[Ty])
    ensures { Puts (P.state line.old) (P.state line.new) (commas (Types.behind_types Spec.typed_const_text types.now parts.now)) }
{
    for (at, value) in parts.iter().enumerate() {
        put_comma(line, at);
        put_part(line, value, types, at);
    }
}

#[cycle(constants)]
fn put_part<P: Printer>(line: &mut P, value: &Const, types: &[Ty], at: usize)
    ensures { Puts (P.state line.old) (P.state line.new) (Spec.typed_const_text (get_or types.now at Ty.Void) value.now) }
{
    match types.get(at) {
        Some(ty) => put_typed_const(line, value, ty),
        None => put_typed_const(line, value, &Ty::Void),
    }
}

#[cycle(constants)]
fn put_base<P: Printer>(line: &mut P, base: &Const, ty: &Ty)
    ensures { Puts (P.state line.old) (P.state line.new) (codes "getelementptr (" ++ Types.ty_text ty.now ++ codes ", " ++ Spec.typed_const_text Ty.Ptr base.now) }
{
    line.put(b"getelementptr (");
    put_ty(line, ty);
    line.put(b", ");
    put_typed_const(line, base, &Ty::Ptr)
}

#[cycle(constants)]
fn put_indices<P: Printer>(line: &mut P, indices: &[Operand])
    ensures { Puts (P.state line.old) (P.state line.new) (Spec.indices_text (map Spec.operand_printed indices.now)) }
{
    for index in indices {
        line.put(b", ");
        put_typed(line, index, &Ty::Int(Width::W64));
    }
}

/// The types of a struct's parts, and of another type no types.
fn parts_of(ty: &Ty) -> &[Ty]
    ensures { result.now ≡ Spec.parts_of (out-Ty ty.now) }
{
    match ty {
        Ty::Struct(types) => types.items(),
        _ => &[],
    }
}

#[tactic(auto, unfolding(crate::specs::Constants::zero_text))]
fn put_zero<P: Printer>(line: &mut P)
    ensures { Puts (P.state line.old) (P.state line.new) (Spec.zero_text) }
{
    line.put(b"zeroinitializer")
}

fn put_bytes<P: Printer>(line: &mut P, text: &[u8])
    ensures { Puts (P.state line.old) (P.state line.new) (Spec.bytes_text text.now) }
{
    line.put(b"c");
    put_quoted(line, text)
}

/// Prints the address so many bytes from the start of a global.
#[tactic(auto, unfolding(crate::specs::Constants::address_text))]
pub fn put_address<P: Printer>(line: &mut P, name: &[u8], offset: u64)
    ensures { Puts (P.state line.old) (P.state line.new) (Spec.address_text name.now offset) }
{
    if offset == 0 {
        put_global(line, name)
    } else {
        put_moved(line, name, offset)
    }
}

fn put_moved<P: Printer>(line: &mut P, name: &[u8], offset: u64)
    ensures { Puts (P.state line.old) (P.state line.new) (Spec.moved_text name.now offset) }
{
    line.put(b"getelementptr (i8, ptr ");
    put_global(line, name);
    line.put(b", i64 ");
    put_integer(line, Width::W64, offset);
    line.put(b")")
}

fn put_number<P: Printer>(line: &mut P, name: &[u8], offset: u64)
    ensures { Puts (P.state line.old) (P.state line.new) (Spec.number_text name.now offset) }
{
    line.put(b"ptrtoint (ptr ");
    put_address(line, name, offset);
    line.put(b" to i64)")
}
