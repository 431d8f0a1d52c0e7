ghost use Rattle.std.specs.Prelude.{◌≡◌, ◌++◌, ◌∷◌, [], IfOk, OnOk};
ghost use Rattle.jump_tables.specs.Tables as spec;

use global_layout::{Group, Layout};
use ltt_base::{Copied, List, Memory};
use std::alloc::Global;

/// A table of functions: entry k is that of `funcs` at place k, and stands 8k bytes from the start.
///
/// Source: Control Flow Integrity Design, "Forward-Edge CFI for Indirect Function Calls".
#[derive(Drop)]
pub struct JumpTable {
    pub funcs: List<u32>,
}

/// The tables of a layout, in the order of their numbers.
pub fn tables(alloc: Global, layout: &Layout) -> Result<List<JumpTable>, Memory>
    ensures { IfOk result (λ tables. tables ≡ spec.tables_of layout.now) }
{
    tables_in(alloc, layout.groups())
}

// The groups that are tables.
fn tables_in(alloc: Global, groups: &[Group]) -> Result<List<JumpTable>, Memory>
    ensures { IfOk result (λ tables. tables ≡ spec.tables_in groups.now) }
{
    let mut tables = List::new(alloc);
    for at in 0..groups.len() {
        add_table(alloc, &mut tables, &groups[at])?;
    }
    Ok(tables)
}

// Adds a group that is a table.
fn add_table(alloc: Global, tables: &mut List<JumpTable>, group: &Group) -> Result<(), Memory>
    ensures { OnOk result (tables.new ≡ tables.old ++ spec.tables_in (group.now ∷ [])) }
{
    if group.table {
        let funcs = group.members.copied(alloc)?;
        tables.add(JumpTable { funcs })?;
    }
    Ok(())
}

/// The number of the table that has a function's entry, and the entry's offset in it. Takes no memory.
///
/// `object` counts the shapes of the layout, from 0. `None` exactly for an object in no table.
pub fn entry_of(layout: &Layout, object: u32) -> Option<(u32, u64)>
    ensures { result ≡ spec.entry_of layout.now object }
{
    match layout.home(object) {
        Some(home) => {
            if home.table {
                Some((home.number, home.offset))
            } else {
                None
            }
        }
        None => None,
    }
}
