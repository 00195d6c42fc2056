//! Tables of rows, and the words in them, for programs that answer rows and print those that come out otherwise.
#![tactic(auto)]

mod table;
mod words;

pub use table::{Row, Table, Tally, asked_of, push_meant, run};
pub use words::{
    named_part, number_at, push_bytes, push_number, push_words, split_bar, split_word, text_of,
    word_at,
};
