// The records and the head as they are read: which objects may stand under which, and each object's six words.
#![tactic(auto)]

pub mod allowed;
pub mod read;
pub mod rows;
