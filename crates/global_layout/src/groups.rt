use ltt_base::List;

/// Where an object stands: in the combined variable or table of a number, so many bytes from its start.
#[derive(Clone, Copy, PartialEq, Eq)]
pub struct Home {
    pub table: bool,
    pub number: u32,
    pub offset: u64,
}

/// A combined variable, or a table of functions.
///
/// `length` is in bytes. Combined variables and tables are numbered apart, from 0, in the order of the groups.
#[derive(Drop)]
pub struct Group {
    pub table: bool,
    pub members: List<u32>,
    pub length: u64,
    pub align: u64,
}
