// The plain text under a number, and its table.
ghost use Rattle.std.specs.Prelude.{◌≡◌};
ghost use Rattle.shelf.specs.Answers.{Fetches, found};

use crate::answers::record_of;
use crate::plain_text::BOTH_USES;
use document::refusal::Refusal;
use document::table::Reading;
use shelf_bytes::HEAD;

// From the first byte up to behind the last.
#[derive(Clone, Copy, Debug, PartialEq, Eq)]
pub struct Stretch {
    pub from: usize,
    pub to: usize,
}

// Where the plain text under a number stands in the area.
#[tactic(auto, using(crate::proofs::Surveyed::record_inside))]
pub fn find(area: &[u8], number: u64) -> Result<Stretch, Refusal>
    ensures { result ≡ found area.now number }
{
    let record = record_of(area, number)?;
    Ok(Stretch {
        from: record.from + HEAD,
        to: record.from + record.size,
    })
}

// "fetch a table by number, read for use 3, which takes both uses, places counted in its plain text"
#[tactic(auto, using(crate::proofs::FoundTexts::found_inside))]
pub fn fetch(area: &[u8], number: u64, strings: &mut [u8]) -> Reading
    ensures { Fetches number area.now strings.old result strings.new }
{
    match find(area, number) {
        Ok(found) => posology::read(&area[found.from..found.to], BOTH_USES, strings),
        Err(why) => Reading {
            answer: Err(why),
            table: posology::empty_table(),
        },
    }
}
