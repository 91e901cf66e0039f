// Bytes by their kinds, and where blanks and strings end.
#![tactic(auto)]

pub mod byte;
pub mod escape;
pub mod string;
