mod allowed;
mod function;
mod laws;
mod nodes;
mod places;
mod reading;
mod rules;
mod second_function;
mod shape;
mod source;
mod tail;
mod texts;
mod units;
mod variables;

pub use laws::{thin_is_determined, thin_is_possible};
use ltt_base::{List, Place, Text};
pub use reading::thin_of;
pub use source::source_module;

/// A variable of a thin file, with the type entry that its node says.
///
/// `count` is the number of its 64-bit parts, `node` the digits of its node's number, and `offset` and
/// `id` are that node's offset, in bytes, and type identifier.
#[derive(Drop)]
pub struct Variable {
    pub place: Place,
    pub name: Text,
    pub count: u64,
    pub node: Text,
    pub offset: u64,
    pub id: Text,
}

/// A type node of a thin file: the digits of its number, its offset and its type identifier.
#[derive(Drop)]
pub struct Node {
    pub number: Text,
    pub offset: u64,
    pub id: Text,
}

/// The second function of a thin file, which has no parameter.
///
/// It tests the address of the variable `object`, or the address `offset` bytes behind it where one is
/// written, for the identifier `tested` into `register`, which it returns.
#[derive(Drop)]
pub struct Second {
    pub place: Place,
    pub name: Text,
    pub register: Text,
    pub object: Text,
    pub offset: Option<u64>,
    pub tested: Text,
}

impl Second {
    ghost use Rattle.std.specs.Prelude.{◌≡◌};
    ghost use Rattle.thin_files.specs.Thin.{distance_of};

    /// The bytes from the start of the variable to the tested address.
    pub fn distance(&self) -> u64
        ensures { result ≡ distance_of self.now.offset }
    {
        match self.offset {
            Some(offset) => offset,
            None => 0,
        }
    }
}

/// What a thin file says: its variables, its functions, and its nodes, each in text order.
///
/// The first function tests its parameter `pointer` for the identifier `tested` into `register`, which
/// it returns.
#[derive(Drop)]
pub struct Thin {
    pub variables: List<Variable>,
    pub place: Place,
    pub name: Text,
    pub pointer: Text,
    pub register: Text,
    pub tested: Text,
    pub second: Option<Second>,
    pub nodes: List<Node>,
}
