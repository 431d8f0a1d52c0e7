//! The words of which the forms of units are made, and the readers of their parts.
#![tactic(auto)]

mod attached;
mod brackets;
mod bytes;
mod escapes;
mod input;
mod lists;
mod seen;
mod stop;
mod tokens;

pub use attached::attachments;
pub use brackets::enclosed;
pub use bytes::are_digits;
pub use escapes::{bare_name, either_name, unquoted, without_first};
pub use input::Input;
pub use lists::{one, two};
pub use seen::Seen;
pub use stop::Stop;
pub use tokens::{
    global, is_kind, is_number, is_one_of, is_text, is_word_of, local, mark, meta_kind, node,
    numbered, of_kind, pass_kind, pass_word, word, word_of,
};
