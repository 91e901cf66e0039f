// The values of an object's members: numbers, strings, dates, days.
#![tactic(auto)]

pub mod date;
pub mod days;
pub mod field;
pub mod four;
