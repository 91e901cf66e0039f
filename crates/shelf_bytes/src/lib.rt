// The bytes of a shelf (document 02, Wish 2), apart from what its texts say.
#![tactic(auto)]

mod gaps;
mod laying;
mod marks;
mod places;

pub use gaps::close_gap;
pub use laying::store;
pub use marks::note;
pub use places::{head_at, number_at, zeros_from};

// The first two bytes of a record.
const MARK: [u8; 2] = [0x50, 0x6F];

// The bytes of a record in front of its plain text.
pub const HEAD: usize = 6;
