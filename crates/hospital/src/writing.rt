// The table of the lent area as its plain text.
ghost use Rattle.std.specs.Prelude.{◌≡◌, length};
ghost use Rattle.document.specs.Values.{length_values};
ghost use Rattle.document.specs.Write.{write_values, buffer_after};
ghost use Rattle.hospital.specs.Calls.{called_write, WritesFrom};

use crate::laying::sized;
use crate::telling::tell;
use document::refusal::{Reason, Refusal};
use document::uses::is_use;

pub(crate) fn write_from(
    table: &[u8],
    strings: &[u8],
    purpose: u64,
    out: &mut [u8],
) -> Result<usize, Refusal>
    ensures answer { length_values result ≡ write_values (called_write purpose table.now strings.now (length out.old)) }
    ensures left { out.new ≡ buffer_after (called_write purpose table.now strings.now (length out.old)) out.old }
{
    sized(table)?;
    if !is_use(purpose) {
        return Err(Refusal(Reason::WrongUse, 0));
    }
    let Ok(part) = c_area_back::head_part(table) else {
        return Err(Refusal(Reason::NotReadable, 0));
    };
    let words = c_area_back::words_in(table);
    writer::write_words(
        part.head, part.count, part.text, &words, strings, purpose, out,
    )
}

#[unsafe(no_mangle)]
pub extern "C" fn posology_write(
    table: &[u8],
    strings: &[u8],
    purpose: u64,
    out: &mut [u8],
    place: &mut u64,
) -> u64
    ensures { WritesFrom purpose table.now strings.now out.old result place.new out.new }
{
    let written = write_from(table, strings, purpose, out);
    tell(c_answers::told_writing(written), place)
}
