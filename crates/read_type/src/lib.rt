// What every object's visit begins with: its names and its type.
#![tactic(auto)]

pub mod opened;
