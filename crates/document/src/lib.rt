// Document 01: its definitions (specs/), the laws of them that code is proved by (proofs/), and the types of the table.
#![tactic(auto)]

pub mod dates;
pub mod moments;
pub mod refusal;
pub mod table;
pub mod terms;
pub mod uses;
