use ltt_base::Text;

/// A global and an offset in bytes, modulo 2^64, and how many levels the text of the address has.
#[derive(Drop)]
pub struct Address {
    pub global: Text,
    pub offset: u64,
    pub levels: usize,
}
