// A posology read into a table (document 01).
#![tactic(auto)]

mod next;
mod reader;

pub use next::{NextWords, answer_of, next_words, read_next};
pub use reader::{empty_table, read, read_words};
