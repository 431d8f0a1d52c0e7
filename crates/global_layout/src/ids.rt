use ltt_base::List;

/// The objects that carry one identifier, by their numbers, which rise.
#[derive(Drop)]
pub struct IdMembers {
    pub members: List<u32>,
}

/// What the layout needs of an object: bytes of its own, and bytes needed before and behind it.
#[derive(Clone, Copy)]
pub struct Shape {
    pub function: bool,
    pub extent: u64,
    pub align: u64,
    pub before: u64,
    pub after: u64,
}
