use ir_values::{Const, Ty};
use ltt_base::Text;

/// A variable up to its type or its initial value.
#[derive(Drop)]
pub struct Kept {
    pub linkage: Option<Text>,
    pub constant: bool,
    pub ty: Ty,
    pub init: Option<Const>,
}
