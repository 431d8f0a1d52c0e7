ghost use Rattle.std.specs.Prelude.{◌≡◌, drop};
ghost use Rattle.type_grammar.specs.Levels.{levels};
ghost use Rattle.type_grammar.specs.Reading.{reads};
ghost use Rattle.unit_grammar.specs.Readers.{read};
ghost use Rattle.unit_grammar.specs.Seeing.{Gives, Passes, tokens};
ghost use Rattle.instruction_grammar.specs.Memory as spec;

use crate::bare_operand::operand_at;
use crate::operands::{pointer, typed_value, value};
use ir_lex::Kind;
use ir_values::{Form, Operand, Ty};
use std::alloc::Global;
use type_grammar::{length_of, read_type};
use unit_grammar::{Input, Stop, mark, of_kind, word};
use word_grammar::next_placed;

#[tactic(auto, unfolding(crate::specs::Memory::accessed))]
fn accessed(alloc: Global, input: &Input<'_>, at: usize) -> Result<(Operand, usize), Stop>
    ensures { Gives (tokens input.now) result (read (reads levels) spec.accessed (drop at (tokens input.now))) }
{
    let at = mark(input, at, b",")?;
    let (addr, at) = pointer(alloc, input, at)?;
    let at = next_placed(input, at)?;
    Ok((addr, at))
}

/// `load T, ptr V [, align N]`.
#[tactic(auto, unfolding(crate::specs::Memory::load))]
pub fn load(alloc: Global, input: &Input<'_>, at: usize) -> Result<(Form, usize), Stop>
    ensures { Gives (tokens input.now) result (read (reads levels) spec.load (drop at (tokens input.now))) }
{
    let at = word(input, at, b"load")?;
    let (ty, at) = read_type(alloc, input, at)?;
    let (addr, at) = accessed(alloc, input, at)?;
    Ok((
        Form::LoadForm {
            dst: None,
            ty,
            addr,
        },
        at,
    ))
}

fn store_of(typed: (Ty, Operand), addr: Operand) -> Form
    ensures { result ≡ spec.store_of (typed, addr) }
{
    let (ty, value) = typed;
    Form::StoreForm { ty, value, addr }
}

/// `store T V, ptr V [, align N]`.
#[tactic(auto, unfolding(crate::specs::Memory::store))]
pub fn store(alloc: Global, input: &Input<'_>, at: usize) -> Result<(Form, usize), Stop>
    ensures { Gives (tokens input.now) result (read (reads levels) spec.store (drop at (tokens input.now))) }
{
    let at = word(input, at, b"store")?;
    let (typed, at) = typed_value(alloc, input, at)?;
    let (addr, at) = accessed(alloc, input, at)?;
    Ok((store_of(typed, addr), at))
}

#[tactic(auto, unfolding(crate::specs::Memory::extracted_part))]
fn extracted_part(input: &Input<'_>, at: usize) -> Result<(Option<u64>, usize), Stop>
    ensures { Gives (tokens input.now) result (read (reads levels) spec.extracted_part (drop at (tokens input.now))) }
{
    let at = mark(input, at, b",")?;
    let (seen, at) = of_kind(input, at, Kind::Number)?;
    Ok((length_of(seen.bytes), at))
}

#[tactic(auto, unfolding(crate::specs::Memory::pair_sign))]
fn pair_sign(input: &Input<'_>, at: usize) -> Result<usize, Stop>
    ensures { Passes (tokens input.now) result (read (reads levels) spec.pair_sign (drop at (tokens input.now))) }
{
    let at = mark(input, at, b"{")?;
    let at = word(input, at, b"ptr")?;
    let at = mark(input, at, b",")?;
    let at = word(input, at, b"i1")?;
    mark(input, at, b"}")
}

/// `extractvalue { ptr, i1 } V, N`.
#[tactic(auto, unfolding(crate::specs::Memory::extract))]
pub fn extract(alloc: Global, input: &Input<'_>, at: usize) -> Result<(Form, usize), Stop>
    ensures { Gives (tokens input.now) result (read (reads levels) spec.extract (drop at (tokens input.now))) }
{
    let at = word(input, at, b"extractvalue")?;
    let at = pair_sign(input, at)?;
    let (bare, at) = value(alloc, input, at)?;
    let (part, at) = extracted_part(input, at)?;
    let value = operand_at(alloc, &Ty::Pair, bare)?;
    Ok((
        Form::ExtractForm {
            dst: None,
            value,
            part,
        },
        at,
    ))
}

/// The number of a pointer, `ptrtoint ptr V to i64`, without the register's name and without attachments.
#[tactic(auto, unfolding(crate::specs::Memory::number))]
pub fn number(alloc: Global, input: &Input<'_>, at: usize) -> Result<(Form, usize), Stop>
    ensures { Gives (tokens input.now) result (read (reads levels) spec.number (drop at (tokens input.now))) }
{
    let at = word(input, at, b"ptrtoint")?;
    let (value, at) = pointer(alloc, input, at)?;
    let at = word(input, at, b"to")?;
    let at = word(input, at, b"i64")?;
    Ok((Form::NumberForm { dst: None, value }, at))
}
