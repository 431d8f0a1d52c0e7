use ir_values::{Param, Ty};
use ltt_base::{List, Text};

/// The head of a function up to its closing parenthesis.
#[derive(Drop)]
pub struct Begun {
    pub linkage: Option<Text>,
    pub result: Ty,
    pub name: Text,
    pub params: List<Param>,
    pub dots: bool,
}
