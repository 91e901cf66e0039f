// The head of a posology, read around its detail.
#![tactic(auto)]

pub mod head;
