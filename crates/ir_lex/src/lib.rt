//! The tokens of a text of LLVM IR, and the tables of its words.
#![tactic(auto)]

mod choice;
mod class;
mod escape;
mod gap;
mod laws;
mod length;
mod lexer;
mod place;
mod table;
mod token;

pub use laws::{lines_tell_first, readings_agree, readings_end, stucks_agree, words_stand_once};
pub use lexer::Lexer;
pub use place::breaks_line;
pub use table::{KEYWORDS, Table, keywords, operations, predicates};
pub use token::{Kind, Token};
