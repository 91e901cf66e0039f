// The head, the counts and the words of records that an area's bytes would lay out (docs/AREA.md).
#![tactic(auto)]

ghost use Rattle.std.specs.Prelude.{◌≡◌, ◌<◌, ◌≤◌, ◌+◌, ◌*◌, length, drop};
ghost use Rattle.table_kinds.specs.Kinds.{groups};
ghost use Rattle.c_numbers.specs.Eights.{number_in};
ghost use Rattle.c_area.specs.Area.{area_bytes, date_in, text_in, head_in};
ghost use Rattle.c_area_back.specs.Parts.{HeadIs, words_in};

use c_area::HEAD;
use document::table::{Date, Head, Text, WORDS};

// The head's part of an area.
#[derive(Clone, Copy)]
pub struct HeadPart {
    pub head: Head,
    pub count: usize,
    pub text: usize,
}

// The numbers of a part of an area, from a place on: in one go, where the bytes have them all.
#[tactic(auto, using(crate::proofs::Groups::numbers_taken))]
fn numbers_from<const N: usize>(area: &[u8], from: usize) -> [u64; N]
    requires { from + N * 8 ≤ area_bytes }
    ensures { result ≡ groups 8 (number_in 8) N (drop from area.now) }
{
    let mut numbers = [0; N];
    if from + N * 8 <= area.len() {
        c_numbers::take_numbers(area, from, &mut numbers);
        return numbers;
    }
    for (i, number) in numbers.iter_mut().enumerate() {
        *number = c_numbers::number_at(area, from + i * 8);
    }
    numbers
}

// The words of the records, behind the head's numbers.
#[tactic(auto, using(crate::proofs::Groups::record_numbers_lem))]
pub fn words_in(area: &[u8]) -> [u64; WORDS]
    ensures { result ≡ words_in area.now }
{
    numbers_from(area, HEAD * 8)
}

#[tactic(auto, unfolding(c_area::specs::Area::date_in, c_area::specs::Area::date_of))]
fn date_in(numbers: &[u64]) -> Date
    requires { 7 ≤ length numbers.now }
    ensures { result ≡ date_in numbers.now }
{
    let year = (numbers[1] % 0x10000) as u16;
    let month = (numbers[2] % 256) as u8;
    let day = (numbers[3] % 256) as u8;
    match numbers[0] {
        0 => Date::Absent,
        1 => Date::Bare { year, month, day },
        _ => Date::Moment {
            year,
            month,
            day,
            second: (numbers[4] % 0x100000000) as u32,
            west: numbers[5] == 1,
            zone: (numbers[6] % 0x10000) as u16,
        },
    }
}

fn text_in(at: usize, numbers: &[u64; HEAD]) -> Text
    requires { at < 24 }
    ensures { result ≡ text_in at numbers.now }
{
    Text {
        start: numbers[at] as usize,
        len: numbers[at + 1] as usize,
    }
}

#[tactic(auto, unfolding(c_area::specs::Area::head_in))]
fn head_in(numbers: &[u64; HEAD]) -> Head
    ensures { result ≡ head_in numbers.now }
{
    Head {
        from: date_in(&numbers[..]),
        to: date_in(&numbers[7..]),
        reserve: numbers[14] == 1,
        meal: (numbers[15] % 256) as u8,
        unit: text_in(16, numbers),
        instructions: text_in(18, numbers),
        roa: text_in(20, numbers),
        moa: text_in(22, numbers),
    }
}

// What the head's numbers are read as: Err where they are not those of it.
pub fn head_part(area: &[u8]) -> Result<HeadPart, HeadPart>
    ensures { HeadIs area.now result }
{
    let numbers: [u64; HEAD] = numbers_from(area, 0);
    let head = head_in(&numbers);
    let count = numbers[24] as usize;
    let text = numbers[25] as usize;
    let part = HeadPart { head, count, text };
    if c_area::head_numbers(head, count, text) != numbers {
        return Err(part);
    }
    Ok(part)
}
