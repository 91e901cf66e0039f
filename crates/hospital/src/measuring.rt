// The length of the plain text of the table in the lent area (document 02, Wish 10).
ghost use Rattle.std.specs.Prelude.{◌≡◌, ◌≤◌};
ghost use Rattle.document.specs.Values.{length_values};
ghost use Rattle.document.specs.Length.{bound, greatest_length};
ghost use Rattle.c_area.specs.Area.{table_in};
ghost use Rattle.hospital.specs.Calls.{called_length, MeasuresFrom};

use crate::laying::sized;
use crate::telling::tell;
use crate::writing::write_from;
use document::refusal::Refusal;

// A buffer that is too short has writing tell the length; a table of another size is refused as for writing.
fn length_from(table: &[u8], strings: &[u8], purpose: u64) -> Result<usize, Refusal>
    ensures { length_values result ≡ called_length purpose table.now strings.now }
{
    sized(table)?;
    let mut nowhere = [0; 1];
    match write_from(table, strings, purpose, &mut nowhere) {
        Ok(length) => Ok(length),
        Err(why) => writer::needed(why),
    }
}

// The length is at most 6 times the table's text bytes, 128 times its records, and 256, added up, and so never over 20,736.
#[unsafe(no_mangle)]
pub extern "C" fn posology_length(
    table: &[u8],
    strings: &[u8],
    purpose: u64,
    place: &mut u64,
) -> u64
    ensures measures_from { MeasuresFrom purpose table.now strings.now result place.new }
    ensures place_bound { result ≡ 0 → (place.new ≤ bound (table_in table.now).count (table_in table.now).text)
        × (place.new ≤ greatest_length) }
{
    let length = length_from(table, strings, purpose);
    tell(c_answers::told_writing(length), place)
}
