// Sizes of types.
ghost use Rattle.std.specs.Prelude.{◌≤◌, length};

use crate::making::push_made;
use crate::tokens::tokens_of;
use ir_numbers::{align_of, field_at, is_laid_out, size_of};
use ir_values::Ty;
use ltt_base::{Memory, Text};
use std::alloc::Global;
use type_grammar::read_type;
use unit_grammar::Input;

fn tell_space(alloc: Global, out: &mut Text, ty: &Ty) -> Result<(), Memory> {
    if !is_laid_out(ty) {
        return out.extend(b"none");
    }
    push_made(
        out,
        format!(in alloc; "{} by {}:", size_of(ty), align_of(ty)),
    )?;
    for index in 0..8u64 {
        match field_at(ty, index) {
            Some(offset) => push_made(out, format!(in alloc; " {}", offset))?,
            None => return Ok(()),
        }
    }
    Ok(())
}

/// Tells the size and the alignment of a type, and the offsets of a struct's parts.
pub fn tell(alloc: Global, out: &mut Text, text: &[u8]) -> Result<(), Memory>
    requires { length text.now ≤ 67_108_864 }
{
    let tokens = tokens_of(alloc, text)?;
    let input = Input {
        text,
        tokens: tokens.items(),
    };
    match read_type(alloc, &input, 0) {
        Ok((ty, _behind)) => tell_space(alloc, out, &ty),
        Err(_) => out.extend(b"no type"),
    }
}
