// What a C program calls (include/posology.h): document 01, "The hospital side calls reading and writing from a C program".
#![tactic(auto)]

mod laying;
mod measuring;
mod reading;
mod running;
mod shelving;
mod telling;
mod writing;

pub use measuring::posology_length;
pub use reading::posology_read;
pub use running::posology_next;
pub use shelving::{
    posology_shelf_at, posology_shelf_fetch, posology_shelf_put, posology_shelf_remove,
};
pub use writing::posology_write;
