// Sets of days: wds and doms.
ghost use Rattle.std.specs.Prelude.{◌≡◌, ◌≤◌, length};
ghost use Rattle.read_fields.specs.Fields.{CountsStill};
ghost use Rattle.read_fields.specs.Dates.{ReadsDays};
ghost use Rattle.read_fields.specs.DaySets.{bits, most_of, DaysIn};

use crate::field;
use crate::field::Counted;
use document::refusal::{Reason, Refusal};
use document::terms::Used;

#[derive(Clone, Copy, Debug, PartialEq, Eq)]
pub enum Days {
    OfWeek,
    OfMonth,
}

impl Days {
    fn most(self) -> u64
        ensures { result ≡ most_of self }
    {
        match self {
            Days::OfWeek => 7,
            Days::OfMonth => 28,
        }
    }
}

// The marked days as a set: day 1 is the lowest bit.
fn set_of(stood: &[bool; 29]) -> u64
    ensures { result ≡ bits 28 stood.now }
{
    let mut set: u64 = 0;
    let mut power: u64 = 1;
    for k in 0..28 {
        set += if stood[k + 1] { power } else { 0 };
        power *= 2;
    }
    set
}

// The days of the list at `at`, from 1 to `most`, as a set: each element in turn, then repeats (11).
fn days_in(text: &[u8], at: usize, most: u64, first: Used) -> Result<Counted, Refusal>
    requires { most ≤ 28 }
    ensures days_in { DaysIn text.now at most first result }
    ensures counts_still { CountsStill first result }
{
    let mut stood = [false; 29];
    let mut again = false;
    let mut used = first;
    let mut e = json_move::first_in(text, at);
    // A list has fewer elements than the text has bytes.
    for _ in 0..text.len() {
        if json_move::at_end(text, e) {
            break;
        }
        let counted = field::integer_value(text, e, 1, most, used)?;
        let day = counted.value as usize;
        again |= stood[day];
        stood[day] = true;
        used = counted.used;
        e = json_move::next_after(text, e);
    }
    if again {
        return Err(Refusal(Reason::WrongCount, at));
    }
    Ok(Counted {
        value: set_of(&stood),
        used,
    })
}

// A set of days that must be there: 7, 4, then 11 where it is empty.
pub fn days_field(
    text: &[u8],
    brace: usize,
    v: Option<usize>,
    days: Days,
    used: Used,
) -> Result<Counted, Refusal>
    ensures reads_days { brace ≤ length text.now → ReadsDays text.now brace v (most_of days) used result }
    ensures counts_still { CountsStill used result }
{
    let at = field::list_field(text, brace, v)?;
    if json_move::at_end(text, json_move::first_in(text, at)) {
        return Err(Refusal(Reason::WrongCount, at));
    }
    days_in(text, at, days.most(), used)
}
