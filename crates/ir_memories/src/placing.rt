// The objects of an output at their addresses.
ghost use Rattle.std.specs.Prelude.{◌≡◌, ◌++◌, [], ◌∷◌, ◌≤◌, ◌<◌, ◌^◌, IfOk, OnOk, length, map, slice_index};
ghost use Rattle.ir_memories.specs.Images as images;
ghost use Rattle.ir_memories.specs.Numeric as numbers;
ghost use Rattle.ir_memories.specs.Stated.{AreAddresses};

use crate::cells::Cell;
use crate::images::{Addresses, cells_of};
use crate::numeric::{Numeric, Row, base_of};
use crate::symbolic::SPtr;
use crate::values::{Goal, NoMemory, Value};
use ir_values::{Func, Jump, Module, Var, Width};
use ltt_base::{Copied, List, Memory, Text};
use std::alloc::Global;
use type_metadata::Object;

impl Numeric {
    /// The memory of an output whose objects, in printed order, stand at these addresses.
    pub fn new(alloc: Global, output: &Module, at: &[u64]) -> Result<Numeric, NoMemory>
        requires { AreAddresses output.now at.now }
        ensures { IfOk result (λ memory. memory ≡ numbers.placed output.now at.now) }
    {
        match made(alloc, output, at) {
            Ok(memory) => Ok(memory),
            Err(Memory) => Err(NoMemory),
        }
    }
}

fn made(alloc: Global, output: &Module, at: &[u64]) -> Result<Numeric, Memory>
    requires { length output.now.funcs ≤ 2 ^ 32 }
    ensures { IfOk result (λ memory. memory ≡ numbers.placed output.now at.now) }
{
    let mut rows = List::new(alloc);
    add_variables(alloc, &mut rows, at, output.vars.items())?;
    add_tables(
        alloc,
        &mut rows,
        at,
        output.jumps.items(),
        output.funcs.items(),
    )?;
    add_functions(alloc, &mut rows, at, output.funcs.items(), true)?;
    add_functions(alloc, &mut rows, at, output.funcs.items(), false)?;
    let cells = variable_cells(alloc, rows.items(), output.vars.items())?;
    Ok(Numeric { rows, cells })
}

/// The addresses in an output.
#[derive(Clone, Copy)]
struct Output<'a> {
    rows: &'a [Row],
}

impl<'a> Addresses for Output<'a> {
    ghost gives = { λ output. numbers.output_address output.rows.now };

    fn address(&self, name: &[u8], offset: u64) -> Value<SPtr> {
        Value::Int(Width::W64, base_of(name, self.rows).wrapping_add(offset))
    }
}

fn variable_cells(
    alloc: Global,
    rows: &[Row],
    variables: &[Var],
) -> Result<List<List<Cell>>, Memory>
    ensures { IfOk result (λ cells. cells ≡ map (λ v. images.cells_of (numbers.output_address rows.now) v.init) variables.now) }
{
    let mut cells = List::new(alloc);
    for variable in variables {
        cells.add(cells_of(alloc, &Output { rows }, &variable.init)?)?;
    }
    Ok(cells)
}

/// The address of the next row.
fn next_base(at: &[u64], rows: &List<Row>) -> u64
    ensures { result ≡ numbers.next_base at.now rows.now }
{
    match at.get(rows.len()) {
        Some(base) => *base,
        None => 0,
    }
}

fn add_variables(
    alloc: Global,
    rows: &mut List<Row>,
    at: &[u64],
    variables: &[Var],
) -> Result<(), Memory>
    ensures { OnOk result (rows.new ≡ numbers.with_variables at.now rows.old variables.now) }
{
    for variable in variables {
        let base = next_base(at, rows);
        rows.add(Row {
            name: variable.name.copied(alloc)?,
            base,
            constant: variable.constant,
            leads: List::new(alloc),
        })?;
    }
    Ok(())
}

fn add_tables(
    alloc: Global,
    rows: &mut List<Row>,
    at: &[u64],
    tables: &[Jump],
    functions: &[Func],
) -> Result<(), Memory>
    requires { length functions.now ≤ 2 ^ 32 }
    ensures { OnOk result (rows.new ≡ numbers.with_tables functions.now at.now rows.old tables.now) }
{
    for table in tables {
        let base = next_base(at, rows);
        rows.add(table_row(alloc, functions, base, table)?)?;
    }
    Ok(())
}

fn table_row(alloc: Global, functions: &[Func], base: u64, table: &Jump) -> Result<Row, Memory>
    requires { length functions.now ≤ 2 ^ 32 }
    ensures { IfOk result (λ row. row ≡ numbers.table_row functions.now base table.now) }
{
    Ok(Row {
        name: table.name.copied(alloc)?,
        base,
        constant: true,
        leads: entries_of(alloc, table.funcs.items(), functions)?,
    })
}

fn entries_of(alloc: Global, names: &[Text], functions: &[Func]) -> Result<List<Goal>, Memory>
    requires { length functions.now ≤ 2 ^ 32 }
    ensures { IfOk result (λ goals. goals ≡ map (λ name. numbers.named_goal name 0 functions.now) names.now) }
{
    let mut goals = List::new(alloc);
    for name in names {
        goals.add(named_goal(alloc, name.bytes(), functions)?)?;
    }
    Ok(goals)
}

fn named_goal(alloc: Global, name: &[u8], functions: &[Func]) -> Result<Goal, Memory>
    requires { length functions.now ≤ 2 ^ 32 }
    ensures { IfOk result (λ goal. goal ≡ numbers.named_goal name.now 0 functions.now) }
{
    for index in 0..functions.len() {
        if functions[index].name.bytes() == name {
            return function_goal(alloc, index as u32, &functions[index]);
        }
    }
    Ok(Goal::External(Text::copy(alloc, name)?))
}

pub(crate) fn is_external(function: &Func) -> bool
    ensures { result ≡ numbers.is_external function.now }
{
    function.blocks.is_empty()
}

fn function_goal(alloc: Global, index: u32, function: &Func) -> Result<Goal, Memory>
    ensures { IfOk result (λ goal. goal ≡ numbers.function_goal index function.now) }
{
    if is_external(function) {
        Ok(Goal::External(function.name.copied(alloc)?))
    } else {
        Ok(Goal::Defined(Object {
            file: 1,
            function: true,
            index,
        }))
    }
}

fn function_row(alloc: Global, index: u32, base: u64, function: &Func) -> Result<Row, Memory>
    ensures { IfOk result (λ row. row ≡ numbers.function_row index base function.now) }
{
    let mut leads = List::new(alloc);
    leads.add(function_goal(alloc, index, function)?)?;
    Ok(Row {
        name: function.name.copied(alloc)?,
        base,
        constant: true,
        leads,
    })
}

fn add_functions(
    alloc: Global,
    rows: &mut List<Row>,
    at: &[u64],
    functions: &[Func],
    external: bool,
) -> Result<(), Memory>
    requires { length functions.now ≤ 2 ^ 32 }
    ensures { OnOk result (rows.new ≡ numbers.with_functions external at.now 0 rows.old functions.now) }
{
    for index in 0..functions.len() {
        if is_external(&functions[index]) == external {
            let base = next_base(at, rows);
            rows.add(function_row(alloc, index as u32, base, &functions[index])?)?;
        }
    }
    Ok(())
}
