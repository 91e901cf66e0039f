// "which number stands at a position counted from 0, with 0 past the last"
ghost use Rattle.std.specs.Prelude.{◌≡◌};
ghost use Rattle.shelf_list.specs.Calls.{at, on_area};
ghost use Rattle.shelf.specs.Answers.{at_answer};

use crate::survey::go_over;
use document::refusal::{Reason, Refusal};
use document::table::LONGEST_PLAIN;

pub fn at(area: &[u8], position: u64) -> Result<u64, Refusal>
    ensures { at_answer result ≡ (on_area (at position) area.now).answer }
{
    let mut scratch = [0u8; LONGEST_PLAIN];
    let s = go_over(area, 0, position, &mut scratch).ok_or(Refusal(Reason::NoShelf, 0))?;
    Ok(u64::from(s.standing))
}
