// Whether a table is that of a valid posology, its strings first in the text buffer (document 01, row 18).
ghost use Rattle.std.specs.Prelude.{◌≡◌};
ghost use Rattle.document.specs.Date.{is_date};
ghost use Rattle.document.specs.Valid.{if_given};
ghost use Rattle.document.specs.Untable.{date_of};
ghost use Rattle.check_doses.specs.Shapes.{Decides};
ghost use Rattle.check_table.specs.Checks.{Checks};
ghost use Rattle.check_table.specs.Readable.{moment_in, PieceAt, PiecesAt, HeadRight, LaidAt, ReadableWords};

use crate::check;
use document::table::{Date, Head, MEAL_CODES, RECORDS, TEXT_ROOM, Text, WORDS};
use document::{dates, moments};
use table_rows::below;

fn is_moment(second: u32, west: bool, zone: u16) -> bool
    ensures { result ≡ moment_in second west zone }
{
    second <= 86399 && zone <= 840 && (!west || 0 < zone)
}

fn is_date(d: Date) -> bool
    ensures { result ≡ if_given is_date (date_of d) }
{
    match d {
        Date::Absent => true,
        Date::Bare { year, month, day } => {
            dates::is_day(u64::from(year), u64::from(month), u64::from(day))
        }
        Date::Moment {
            year,
            month,
            day,
            second,
            west,
            zone,
        } => {
            dates::is_day(u64::from(year), u64::from(month), u64::from(day))
                && is_moment(second, west, zone)
        }
    }
}

fn head_right(h: Head, purpose: u64) -> bool
    ensures { Decides (HeadRight h purpose) result }
{
    h.meal <= MEAL_CODES
        && is_date(h.from)
        && is_date(h.to)
        && moments::in_order(h.from, h.to)
        && (purpose == 3 || 0 < h.unit.len)
}

// A string of the head, behind so many text bytes: absent with start and length 0, or as any string.
fn piece(buffer: &[u8], t: Text, text: usize) -> Option<usize>
    ensures { Checks (λ u. PieceAt buffer.now t text u) result }
{
    if t.len == 0 && t.start == 0 {
        return Some(text);
    }
    if check::string(buffer, t.start, t.len, text) {
        return Some(text + t.len);
    }
    None
}

fn strings(buffer: &[u8], h: Head, text: usize) -> Option<usize>
    ensures { Checks (λ u. PiecesAt buffer.now h text u) result }
{
    let unit = piece(buffer, h.unit, text)?;
    let instructions = piece(buffer, h.instructions, unit)?;
    let roa = piece(buffer, h.roa, instructions)?;
    piece(buffer, h.moa, roa)
}

// "at most 3 sequences inside one another"
const SEQUENCES: usize = 3;

// The records and the strings of a table, as its head says.
fn is_laid(words: &[u64; WORDS], buffer: &[u8], h: Head, count: usize, text: usize) -> bool
    ensures { Decides (LaidAt words.now buffer.now h count text) result }
{
    if TEXT_ROOM < text || RECORDS < count || count == 0 || below(words, 0) != count - 1 {
        return false;
    }
    let Some(taken) = check::detail(words, 0, SEQUENCES, buffer, 0) else {
        return false;
    };
    strings(buffer, h, taken) == Some(text) && check::unused(words, count)
}

// What the writer refuses with 18 is not readable: a table by its head, its two counts and the words of its records.
pub fn is_readable(
    h: Head,
    count: usize,
    text: usize,
    words: &[u64; WORDS],
    buffer: &[u8],
    purpose: u64,
) -> bool
    ensures { Decides (ReadableWords purpose h count text words.now buffer.now) result }
{
    head_right(h, purpose) && is_laid(words, buffer, h, count, text)
}
