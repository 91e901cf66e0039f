// The plain text of a posology put into a buffer, field by field (document 01, "The plain text").
#![tactic(auto)]

mod head;

pub use head::put_posology;
