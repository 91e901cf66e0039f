// The plain text of a posology's detail put into an output, object by object (document 01, "The plain text").
#![tactic(auto)]

mod detail;
mod dosage;
mod tag;
mod timed;

pub use detail::{part, put_po};
pub use dosage::put_integer;
