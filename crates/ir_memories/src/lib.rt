//! Values, and the memories in which a program runs.
#![tactic(auto)]

mod cells;
mod images;
mod laws;
mod memory;
mod numeric;
mod placing;
mod stated;
mod symbolic;
mod values;
mod worlds;

pub use cells::Cell;
pub use laws::{
    numbers_move, numeric_stores_are_loaded, numeric_stores_keep_the_rest,
    objects_stand_where_placed, some_source_is_possible, stated_is_placed, symbolic_pointers_move,
    symbolic_stores_are_loaded, symbolic_stores_keep_the_rest, tests_are_exact,
};
pub use memory::Memory;
pub use numeric::{Numeric, Row};
pub use stated::{Room, place_from};
pub use symbolic::{SPtr, Space, Symbolic};
pub use values::{Goal, NoMemory, Value};
