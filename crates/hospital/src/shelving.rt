// The shelf in a lent area (document 02, Wish 2).
ghost use Rattle.c_answers.specs.Telling.{told_writing};
ghost use Rattle.hospital.specs.ShelfCalls.{PutsInto, FetchesInto, RemovesFrom, StandsAt};

use crate::laying::sized;
use crate::reading::read_into;
use crate::telling::tell;
use document::refusal::Refusal;
use shelf::BOTH_USES;

#[unsafe(no_mangle)]
pub extern "C" fn posology_shelf_put(
    area: &mut [u8],
    number: u64,
    text: &[u8],
    purpose: u64,
    place: &mut u64,
) -> u64
    ensures { PutsInto number purpose text.now area.old result place.new area.new }
{
    let put = shelf::put(area, number, text, purpose);
    tell(c_answers::told_writing(put), place)
}

// The plain text under a number, read where it stands.
#[tactic(auto, using(shelf::proofs::FoundTexts::found_inside))]
fn fetch_into(
    area: &[u8],
    number: u64,
    strings: &mut [u8],
    table: &mut [u8],
) -> Result<usize, Refusal>
    ensures { FetchesInto number area.now strings.old table.old (told_writing result).number (told_writing result).place strings.new table.new }
{
    sized(table)?;
    let found = shelf::find(area, number)?;
    read_into(&area[found.from..found.to], BOTH_USES, strings, table)
}

#[unsafe(no_mangle)]
pub extern "C" fn posology_shelf_fetch(
    area: &[u8],
    number: u64,
    strings: &mut [u8],
    table: &mut [u8],
    place: &mut u64,
) -> u64
    ensures { FetchesInto number area.now strings.old table.old result
        place.new strings.new table.new }
{
    let fetched = fetch_into(area, number, strings, table);
    tell(c_answers::told_writing(fetched), place)
}

#[unsafe(no_mangle)]
pub extern "C" fn posology_shelf_remove(area: &mut [u8], number: u64) -> u64
    ensures { RemovesFrom number area.old result area.new }
{
    match shelf::remove(area, number) {
        Ok(()) => 0,
        Err(why) => u64::from(why.0.number()),
    }
}

#[unsafe(no_mangle)]
pub extern "C" fn posology_shelf_at(area: &[u8], position: u64, number: &mut u64) -> u64
    ensures { StandsAt position area.now result number.new }
{
    match shelf::at(area, position) {
        Ok(standing) => {
            *number = standing;
            0
        }
        Err(why) => {
            *number = 0;
            u64::from(why.0.number())
        }
    }
}
