// The first posology of a run into the lent area.
ghost use Rattle.c_answers.specs.Telling.{told_next};
ghost use Rattle.hospital.specs.Calls.{ReadsNextInto};

use crate::laying::{lay_read, sized};
use crate::telling::tell;
use document::refusal::Refusal;
use document::table::{Next, WORDS};
use posology::NextWords;

// Only a posology that was taken is laid.
fn next_into(
    run: &[u8],
    purpose: u64,
    strings: &mut [u8],
    table: &mut [u8],
) -> Result<Next, Refusal>
    ensures { ReadsNextInto purpose run.now strings.old table.old (told_next result).number (told_next result).place strings.new table.new }
{
    sized(table)?;
    let mut rows = [0; WORDS];
    match posology::next_words(run, purpose, strings, &mut rows)? {
        NextWords::Taken { end, head } => {
            lay_read(head, &mut rows, table);
            Ok(Next::Taken { end })
        }
        NextWords::Blank { length } => Ok(Next::Blank { length }),
    }
}

#[unsafe(no_mangle)]
pub extern "C" fn posology_next(
    run: &[u8],
    purpose: u64,
    strings: &mut [u8],
    table: &mut [u8],
    place: &mut u64,
) -> u64
    ensures { ReadsNextInto purpose run.now strings.old table.old result place.new strings.new table.new }
{
    let next = next_into(run, purpose, strings, table);
    tell(c_answers::told_next(next), place)
}
