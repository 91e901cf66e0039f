// A text stored as its plain text behind the last record.
ghost use Rattle.shelf_list.specs.Calls.{put, Serves};
ghost use Rattle.shelf.specs.Answers.{put_answer, StoresPlain};

use crate::answers::asked;
use crate::survey::go_over;
use document::refusal::{Reason, Refusal};
use document::table::LONGEST_PLAIN;

// "24 no room, exactly when the free bytes are fewer than 6 and L"
fn store(area: &mut [u8], used: usize, number: u64, plain: &[u8]) -> Result<usize, Refusal>
    ensures { StoresPlain number used plain.now area.old result area.new }
{
    if !shelf_bytes::store(area, used, number, plain) {
        return Err(Refusal(Reason::NoShelfRoom, 0));
    }
    Ok(plain.len())
}

// Stored, with the length of the plain text.
pub fn put(area: &mut [u8], number: u64, text: &[u8], purpose: u64) -> Result<usize, Refusal>
    ensures { Serves (put number purpose text.now) area.old (put_answer result) area.new }
{
    let mut scratch = [0u8; LONGEST_PLAIN];
    let s = asked(go_over(area, number, 0, &mut scratch), number)?;
    if s.found.is_some() {
        return Err(Refusal(Reason::NumberTaken, 0));
    }
    let length = rewriter::rewrite(text, purpose, &mut scratch)?;
    let plain = &scratch[..length];
    store(area, s.used, number, plain)
}
