// What every call looks at first, in the order of document 02, Wish 2: whether the area is a shelf, whether the number is one, and where its record
// stands.
ghost use Rattle.std.specs.Prelude.{◌≡◌};
ghost use Rattle.shelf.specs.Survey.{asked, record_of};

use crate::survey::{Place, Survey, go_over};
use document::refusal::{Reason, Refusal};
use document::table::LONGEST_PLAIN;

// "a number from 1 to 65,535"
const GREATEST: u64 = 65535;

// "Order: 20, 21, .."
pub(crate) fn asked(survey: Option<Survey>, number: u64) -> Result<Survey, Refusal>
    ensures { result ≡ asked survey number }
{
    let s = survey.ok_or(Refusal(Reason::NoShelf, 0))?;
    if number < 1 || GREATEST < number {
        return Err(Refusal(Reason::NoNumber, 0));
    }
    Ok(s)
}

// ".. 23"
pub(crate) fn record_of(area: &[u8], number: u64) -> Result<Place, Refusal>
    ensures { result ≡ record_of area.now number }
{
    let mut scratch = [0u8; LONGEST_PLAIN];
    let s = asked(go_over(area, number, 0, &mut scratch), number)?;
    s.found.ok_or(Refusal(Reason::NumberMissing, 0))
}
