// Some hundred posologies in one lent area (document 02, Wish 2).
#![tactic(auto)]

mod answers;
mod fetching;
mod plain_text;
mod removing;
mod standing;
mod storing;
mod survey;

pub use fetching::{Stretch, fetch, find};
pub use plain_text::BOTH_USES;
pub use removing::remove;
pub use standing::at;
pub use storing::put;
