// One posology text into the lent area.
ghost use Rattle.c_answers.specs.Telling.{told_writing};
ghost use Rattle.hospital.specs.Calls.{ReadsInto};

use crate::laying::{lay_read, sized};
use crate::telling::tell;
use document::refusal::Refusal;
use document::table::WORDS;

// All of the text is taken, or none of it.
pub(crate) fn read_into(
    text: &[u8],
    purpose: u64,
    strings: &mut [u8],
    table: &mut [u8],
) -> Result<usize, Refusal>
    ensures { ReadsInto purpose text.now strings.old table.old (told_writing result).number (told_writing result).place strings.new table.new }
{
    sized(table)?;
    let mut rows = [0; WORDS];
    let head = posology::read_words(text, purpose, strings, &mut rows)?;
    lay_read(head, &mut rows, table);
    Ok(text.len())
}

#[unsafe(no_mangle)]
pub extern "C" fn posology_read(
    text: &[u8],
    purpose: u64,
    strings: &mut [u8],
    table: &mut [u8],
    place: &mut u64,
) -> u64
    ensures { ReadsInto purpose text.now strings.old table.old result place.new strings.new table.new }
{
    let read = read_into(text, purpose, strings, table);
    tell(c_answers::told_writing(read), place)
}
