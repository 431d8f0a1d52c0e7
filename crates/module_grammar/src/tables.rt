ghost use Rattle.std.specs.Prelude.{◌≡◌, ◌∷◌, IfOk, drop};
ghost use Rattle.module_grammar.specs.Tables as spec;
ghost use Rattle.type_grammar.specs.Levels.{levels};
ghost use Rattle.type_grammar.specs.Reading.{reads};
ghost use Rattle.unit_grammar.specs.Readers.{read};
ghost use Rattle.unit_grammar.specs.Seeing.{Gives, tokens};

use crate::tokens::written_number;
use ir_values::Form;
use ltt_base::{List, Memory, Text};
use std::alloc::Global;
use unit_grammar::{Input, Stop, global, mark, one, word};

#[tactic(auto, unfolding(crate::specs::Tables::next_function, crate::specs::Tables::function))]
fn next_function(alloc: Global, input: &Input<'_>, at: usize) -> Result<(Text, usize), Stop>
    ensures { Gives (tokens input.now) result (read (reads levels) spec.next_function (drop at (tokens input.now))) }
{
    let at = mark(input, at, b",")?;
    global(alloc, input, at)
}

#[tactic(auto, unfolding(crate::specs::Tables::other_functions))]
fn other_functions(alloc: Global, input: &Input<'_>, at: usize) -> Result<(List<Text>, usize), Stop>
    ensures { Gives (tokens input.now) result (read (reads levels) spec.other_functions (drop at (tokens input.now))) }
{
    let mut list = List::new(alloc);
    let mut at = at;
    for turn in 0..input.left(at) {
        match next_function(alloc, input, at) {
            Ok((item, behind)) => {
                list.add(item)?;
                at = behind;
            }
            Err(Stop::Absent) => return Ok((list, at)),
            Err(Stop::Deep) => return Err(Stop::Deep),
            Err(Stop::Memory) => return Err(Stop::Memory),
        }
    }
    Ok((list, at))
}

fn all_of(alloc: Global, first: Text, others: List<Text>) -> Result<List<Text>, Memory>
    ensures { IfOk result (λ list. list ≡ first ∷ others) }
{
    let mut list = one(alloc, first)?;
    list.append(others)?;
    Ok(list)
}

#[tactic(auto, unfolding(crate::specs::Tables::functions, crate::specs::Tables::function))]
fn functions(alloc: Global, input: &Input<'_>, at: usize) -> Result<(List<Text>, usize), Stop>
    ensures { Gives (tokens input.now) result (read (reads levels) spec.functions (drop at (tokens input.now))) }
{
    let (first, at) = global(alloc, input, at)?;
    let (others, at) = other_functions(alloc, input, at)?;
    Ok((all_of(alloc, first, others)?, at))
}

/// A jump table.
#[tactic(auto, unfolding(crate::specs::Tables::table, crate::specs::Tables::function))]
pub fn table(alloc: Global, input: &Input<'_>, at: usize) -> Result<(Form, usize), Stop>
    ensures { Gives (tokens input.now) result (read (reads levels) spec.table (drop at (tokens input.now))) }
{
    let at = word(input, at, b"jumptable")?;
    let (name, at) = global(alloc, input, at)?;
    let at = word(input, at, b"align")?;
    let at = written_number(input, at, b"8")?;
    let at = mark(input, at, b"{")?;
    let (funcs, at) = functions(alloc, input, at)?;
    let at = mark(input, at, b"}")?;
    Ok((Form::TableForm { name, funcs }, at))
}
