//! What spellings are made of: white space, signs and decimal digits, read and printed, and why bytes
//! spell no value.
#![tactic(auto)]

mod fault;
mod numeral;
mod print;
mod white;

pub use fault::ValueFault;
pub use numeral::{split_digits, split_number, split_sign, two_digits, with_sign};
pub use print::{push_ascii, push_decimal, push_fraction, push_places, push_sign, push_two_digits};
pub use white::trimmed;
