// The length of a plain text that is not written (document 02, Wish 10).
ghost use Rattle.std.specs.Prelude.{◌≡◌, ℕ, ◌≤◌};
ghost use Rattle.document.specs.Values.{ends, length_values, refusal_values};
ghost use Rattle.document.specs.Length.{bound, greatest_length, needed, Measures};

use crate::write;
use document::refusal::{Reason, Refusal};
use document::table::Table;

// 19 tells the length that the buffer has to have.
#[tactic(auto, using(crate::proofs::MeasuredLengths::no_length))]
pub fn needed(why: Refusal) -> Result<usize, Refusal>
    ensures { length_values result ≡ needed (refusal_values why) }
{
    let Refusal(reason, place) = why;
    match reason {
        Reason::BufferTooShort => Ok(place),
        _ => Err(why),
    }
}

// How many bytes `write` would write: at most 6 times the table's text bytes, 128 times its records, and 256, added up (`longest`), and
// so never over 20,736 (`LONGEST_PLAIN`). 17 and 18 as of `write`, and never 19.
pub fn length(t: Table, strings: &[u8], purpose: u64) -> Result<usize, Refusal>
    ensures measures { Measures purpose t strings.now result }
    ensures by_index { (n : ℕ) → length_values result ≡ ends n → (n ≤ bound t.count t.text) × (n ≤ greatest_length) }
{
    let mut nowhere = [0u8; 1];
    match write(t, strings, purpose, &mut nowhere) {
        Ok(length) => Ok(length),
        Err(why) => needed(why),
    }
}
