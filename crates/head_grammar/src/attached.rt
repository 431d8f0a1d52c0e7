use ir_values::Attach;
use ltt_base::{List, Text};

/// An attachment and the words that are kept of what stands behind it.
#[derive(Drop)]
pub struct Attached {
    pub attach: Attach,
    pub left: List<Text>,
}

/// The attachments of a definition's head, and the words that are kept of what stands behind each.
#[derive(Drop)]
pub struct Gathered {
    pub attached: List<Attach>,
    pub left: List<Text>,
}
