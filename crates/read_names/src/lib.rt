// The names of document 01's members, and where each stands in an object. One walk over an object's members settles them all.
#![tactic(auto)]

mod member;
mod names;
mod packed;
mod settling;
mod slots;
mod table;
mod taking;
mod unknown;

pub use names::Name;
pub use settling::settle;
pub use slots::{Object, Slots, Twice};
pub use unknown::unknown_name;
