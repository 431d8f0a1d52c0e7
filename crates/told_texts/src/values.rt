// Types, constants and parts of nodes in short.
use crate::making::push_number;
use ir_values::{Const, MetaItem, Operand, Ty, Width};
use ltt_base::{Memory, Text};
use std::alloc::Global;
use type_grammar::Bare;

fn push(out: &mut Text, text: &str) -> Result<(), Memory> {
    out.extend(text.as_bytes())
}

fn width(width: Width) -> &'static str {
    match width {
        Width::W1 => "i1",
        Width::W8 => "i8",
        Width::W16 => "i16",
        Width::W32 => "i32",
        Width::W64 => "i64",
    }
}

/// A type: `void`, `i8`, `ptr`, `pair`, `[3 T]`, `{T;T;}`, `%name`, `left<text>`.
pub fn show_type(alloc: Global, out: &mut Text, ty: &Ty) -> Result<(), Memory> {
    match ty {
        Ty::Void => push(out, "void"),
        Ty::Int(found) => push(out, width(*found)),
        Ty::Ptr => push(out, "ptr"),
        Ty::Pair => push(out, "pair"),
        Ty::Array(count, part) => {
            push(out, "[")?;
            push_number(alloc, out, *count)?;
            push(out, " ")?;
            show_type(alloc, out, part.get())?;
            push(out, "]")
        }
        Ty::Struct(parts) => {
            push(out, "{")?;
            for part in parts.items() {
                show_type(alloc, out, part)?;
                push(out, ";")?;
            }
            push(out, "}")
        }
        Ty::Named(name) => {
            push(out, "%")?;
            out.extend(name.bytes())
        }
        Ty::Left(text) => show_left(out, text),
    }
}

fn show_left(out: &mut Text, text: &Text) -> Result<(), Memory> {
    push(out, "left<")?;
    out.extend(text.bytes())?;
    push(out, ">")
}

fn show_address(
    alloc: Global,
    out: &mut Text,
    sign: &str,
    name: &Text,
    offset: u64,
) -> Result<(), Memory> {
    push(out, sign)?;
    out.extend(name.bytes())?;
    push(out, "+")?;
    push_number(alloc, out, offset)
}

#[cycle(shown)]
fn show_parts(alloc: Global, out: &mut Text, parts: &[Const]) -> Result<(), Memory> {
    for part in parts {
        show(alloc, out, part)?;
        push(out, ";")?;
    }
    Ok(())
}

#[cycle(shown)]
fn show_operand(alloc: Global, out: &mut Text, operand: &Operand) -> Result<(), Memory> {
    match operand {
        Operand::Reg(name) => out.extend(name.bytes()),
        Operand::Const(constant) => show(alloc, out, constant),
    }
}

/// A constant: `i8 7`, `null`, `@a+0`, `zero T`, `[T|T:C;T:C;]`, `{T:C;}`, `c<bytes>`, `gep(T,C;T:C;)`, `number@a+0`, `left<text>`.
#[cycle(shown)]
pub fn show(alloc: Global, out: &mut Text, constant: &Const) -> Result<(), Memory> {
    match constant {
        Const::Int(found, number) => {
            push(out, width(*found))?;
            push(out, " ")?;
            push_number(alloc, out, *number)
        }
        Const::Null => push(out, "null"),
        Const::Addr(name, offset) => show_address(alloc, out, "@", name, *offset),
        Const::Number(name, offset) => show_address(alloc, out, "number@", name, *offset),
        Const::Zero(ty) => {
            push(out, "zero ")?;
            show_type(alloc, out, ty)
        }
        Const::Array(ty, parts) => {
            push(out, "[")?;
            show_type(alloc, out, ty)?;
            push(out, "|")?;
            show_parts(alloc, out, parts.items())?;
            push(out, "]")
        }
        Const::Struct(parts) => {
            push(out, "{")?;
            show_parts(alloc, out, parts.items())?;
            push(out, "}")
        }
        Const::Bytes(bytes) => {
            push(out, "c<")?;
            out.extend(bytes.bytes())?;
            push(out, ">")
        }
        Const::Gep(ty, base, indices) => {
            push(out, "gep(")?;
            show_type(alloc, out, ty)?;
            push(out, ",")?;
            show(alloc, out, base.get())?;
            push(out, ";")?;
            for index in indices.items() {
                show_operand(alloc, out, index)?;
                push(out, ";")?;
            }
            push(out, ")")
        }
        Const::Left(text) => show_left(out, text),
        Const::Typed(ty, part) => {
            show_type(alloc, out, ty)?;
            push(out, ":")?;
            show(alloc, out, part.get())
        }
    }
}

/// A constant before its type is known: `number text`, `zero`, or as it stands.
pub fn show_bare(alloc: Global, out: &mut Text, bare: &Bare) -> Result<(), Memory> {
    match bare {
        Bare::Number(text) => {
            push(out, "number ")?;
            out.extend(text.bytes())
        }
        Bare::Zero => push(out, "zero"),
        Bare::Plain(constant) => show(alloc, out, constant),
    }
}

/// A part of a node: `T:C`, `!7`, `"text"`, `null`, `{E;E;}`.
pub fn show_item(alloc: Global, out: &mut Text, item: &MetaItem) -> Result<(), Memory> {
    match item {
        MetaItem::Const(ty, constant) => {
            show_type(alloc, out, ty)?;
            push(out, ":")?;
            show(alloc, out, constant)
        }
        MetaItem::Node(node) => {
            push(out, "!")?;
            out.extend(node.bytes())
        }
        MetaItem::Word(text) => {
            push(out, "\"")?;
            out.extend(text.bytes())?;
            push(out, "\"")
        }
        MetaItem::Null => push(out, "null"),
        MetaItem::Nested(items) => {
            push(out, "{")?;
            for item in items.items() {
                show_item(alloc, out, item)?;
                push(out, ";")?;
            }
            push(out, "}")
        }
    }
}
