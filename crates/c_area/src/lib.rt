// A table laid into the lent area of the hospital side (docs/AREA.md).
#![tactic(auto)]

ghost use Rattle.std.specs.Prelude.{◌≡◌, List, [], ◌∷◌, cond, ℕ, eqb, length};
ghost use Rattle.document.specs.Words.{date_words, head_words};
ghost use Rattle.c_numbers.specs.Eights.{all_bytes};
ghost use Rattle.c_area.specs.Area.{area_of, area_bytes};

use c_numbers::lay_numbers;
use document::table::{Date, Head, Table, WORDS};

pub const AREA: usize = 3280;

const DATE: usize = 7;

// A head's numbers, with the two counts behind it.
pub const HEAD: usize = 26;

fn date_numbers(date: Date) -> [u64; DATE]
    ensures { result ≡ date_words date [] }
{
    match date {
        Date::Absent => [0; DATE],
        Date::Bare { year, month, day } => [
            1,
            u64::from(year),
            u64::from(month),
            u64::from(day),
            0,
            0,
            0,
        ],
        Date::Moment {
            year,
            month,
            day,
            second,
            west,
            zone,
        } => [
            2,
            u64::from(year),
            u64::from(month),
            u64::from(day),
            u64::from(second),
            u64::from(west),
            u64::from(zone),
        ],
    }
}

pub fn head_numbers(head: Head, count: usize, text: usize) -> [u64; HEAD]
    ensures { result ≡ head_words head (count ∷ text ∷ []) }
{
    let mut numbers = [0; HEAD];
    numbers[..DATE].copy_from_slice(&date_numbers(head.from));
    numbers[DATE..2 * DATE].copy_from_slice(&date_numbers(head.to));
    numbers[2 * DATE..].copy_from_slice(&[
        u64::from(head.reserve),
        u64::from(head.meal),
        head.unit.start as u64,
        head.unit.len as u64,
        head.instructions.start as u64,
        head.instructions.len as u64,
        head.roa.start as u64,
        head.roa.len as u64,
        head.moa.start as u64,
        head.moa.len as u64,
        count as u64,
        text as u64,
    ]);
    numbers
}

// Lays a table out by its head, its two counts and the words of its records; an area of another size is left as it is.
pub fn lay_words(head: Head, count: usize, text: usize, words: &[u64; WORDS], area: &mut [u8])
    ensures { area.new ≡ cond (eqb (length area.old) area_bytes) (all_bytes (head_words head (count ∷ text ∷ words.now))) area.old }
{
    if area.len() != AREA {
        return;
    }
    lay_numbers(&head_numbers(head, count, text), area, 0);
    lay_numbers(words, area, HEAD * 8);
}

pub fn lay(table: Table, area: &mut [u8])
    ensures { area.new ≡ cond (eqb (length area.old) area_bytes) (area_of table) area.old }
{
    let records = table_words::table_words(table);
    lay_words(table.head, table.count, table.text, &records, area);
}
