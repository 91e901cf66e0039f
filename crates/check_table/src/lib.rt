// Whether a table can be read: what the writer refuses with 18 fails this (document 01, "Answers by number").
#![tactic(auto)]

mod check;
mod check_head;

pub use check_head::is_readable;
