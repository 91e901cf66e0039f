// Dosages, applications and timed dosages visited in document 01's order, each into its record of six words.
#![tactic(auto)]

mod application;
mod dosage;
pub mod timed;
