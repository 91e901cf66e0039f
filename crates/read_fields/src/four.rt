// The four decimals of a Daily (document 01, "Objects": ds).
ghost use Rattle.std.specs.Prelude.{◌≤◌, length};
ghost use Rattle.read_fields.specs.Fields.{FourIn, FourNeeded};

use crate::field;
use document::refusal::{Reason, Refusal};

#[derive(Clone, Copy)]
pub struct Four {
    pub morning: u64,
    pub noon: u64,
    pub evening: u64,
    pub night: u64,
}

// Those of the list at `at`, which has four elements.
fn four_in(text: &[u8], at: usize) -> Result<Four, Refusal>
    ensures { FourIn text.now at result }
{
    let e = json_move::first_in(text, at);
    let morning = field::decimal_value(text, e, 0)?;
    let e = json_move::next_after(text, e);
    let noon = field::decimal_value(text, e, 0)?;
    let e = json_move::next_after(text, e);
    let evening = field::decimal_value(text, e, 0)?;
    let e = json_move::next_after(text, e);
    let night = field::decimal_value(text, e, 0)?;
    Ok(Four {
        morning,
        noon,
        evening,
        night,
    })
}

// Four decimals that must be there: 7, 4, then 11 where the list has another count.
pub fn four_field(text: &[u8], brace: usize, v: Option<usize>) -> Result<Four, Refusal>
    ensures { brace ≤ length text.now → FourNeeded text.now brace v result }
{
    let at = field::list_field(text, brace, v)?;
    if json_move::count(text, at) != 4 {
        return Err(Refusal(Reason::WrongCount, at));
    }
    four_in(text, at)
}
