// The objects of a posology's detail visited in document 01's order, each into its record of six words.
#![tactic(auto)]

pub mod detail;
