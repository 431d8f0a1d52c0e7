//! Names, numerals and escapes as texts: how they are printed and shown, and what stands written.
#![tactic(auto)]

mod digits;
mod names;
mod numbers;
mod printer;
mod words;

pub use digits::{all_digits, is_decimal, value_of};
pub use names::{put_global, put_local, put_name, put_quoted};
pub use numbers::{put_decimal, put_integer, put_signed_decimal};
pub use printer::Printer;
pub use words::{integer_word, name_word, named_word, numeral};
