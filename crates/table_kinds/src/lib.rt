// A record made of its six words: tag, records below, four values (the way back of words).
#![tactic(auto)]

ghost use Rattle.std.specs.Prelude.{◌≡◌, ℕ, ◌≤◌, ◌<◌};
ghost use Rattle.table_kinds.specs.Kinds.{u8, u32, kind_of, record_at, at_most};

use document::table::{Dosage, Kind, RECORDS, Record, Text, WIDTH};

// What a value's type cannot hold of a word is cut.
fn low_byte(word: u64) -> u8
    ensures { result ≡ u8 word }
{
    (word % 0x100) as u8
}

fn low_half(word: u64) -> u32
    ensures { result ≡ u32 word }
{
    (word % 0x100000000) as u32
}

#[tactic(auto, unfolding(crate::specs::Kinds::kind_of))]
fn dosage_of(tag: u64, a: u64, b: u64, c: u64, d: u64) -> Dosage
    requires { (12 ≤ tag) × (tag < 15) }
    ensures { Kind.Dosage result ≡ kind_of tag a b c d }
{
    match tag {
        12 => Dosage::Simple { amount: a },
        13 => Dosage::FromTo {
            from: a,
            to: b,
            unit: low_byte(c),
            duration: low_half(d),
        },
        _ => Dosage::Range { min: a, max: b },
    }
}

#[tactic(auto, unfolding(crate::specs::Kinds::kind_of))]
fn timed_of(tag: u64, a: u64, b: u64) -> Kind
    requires { (6 ≤ tag) × (tag < 12) }
    ensures { (c d : ℕ) → result ≡ kind_of tag a b c d }
{
    match tag {
        6 => Kind::DosageOnly,
        7 => Kind::Times,
        8 => Kind::DaySegments,
        9 => Kind::WeekDays { days: low_half(a) },
        10 => Kind::DaysOfMonth { days: low_half(a) },
        _ => Kind::Interval {
            duration: low_half(a),
            unit: low_byte(b),
        },
    }
}

#[tactic(auto, using(crate::proofs::Tags::last_kind), unfolding(crate::specs::Kinds::kind_of))]
fn other_of(tag: u64, a: u64, b: u64) -> Kind
    requires { 15 ≤ tag }
    ensures { (c d : ℕ) → result ≡ kind_of tag a b c d }
{
    match tag {
        15 => Kind::PosologySequence {
            duration: low_half(a),
            unit: low_byte(b),
        },
        16 => Kind::Pause {
            duration: low_half(a),
            unit: low_byte(b),
        },
        17 => Kind::AtTime {
            second: low_half(a),
        },
        _ => Kind::InSegment {
            segment: low_byte(a),
        },
    }
}

#[tactic(auto, unfolding(crate::specs::Kinds::kind_of))]
fn kind_of(tag: u64, a: u64, b: u64, c: u64, d: u64) -> Kind
    ensures { result ≡ kind_of tag a b c d }
{
    match tag {
        0 => Kind::None,
        1 => Kind::Daily {
            morning: a,
            noon: b,
            evening: c,
            night: d,
        },
        2 => Kind::FreeText {
            text: Text {
                start: a as usize,
                len: b as usize,
            },
        },
        3 => Kind::Single,
        4 => Kind::Cyclic {
            unit: low_byte(a),
            duration: low_half(b),
            per_cycle: low_half(c),
        },
        5 => Kind::Sequence,
        6..=11 => timed_of(tag, a, b),
        12..=14 => Kind::Dosage {
            dosage: dosage_of(tag, a, b, c, d),
        },
        _ => other_of(tag, a, b),
    }
}

const NO_RECORD: Record = Record {
    kind: Kind::None,
    below: 0,
};

// The record of the words at a place; an unused one where there are fewer than a record has.
pub fn record_at(words: &[u64], at: usize) -> Record
    ensures { result ≡ record_at words.now at }
{
    if words.len() < WIDTH || words.len() - WIDTH < at {
        return NO_RECORD;
    }
    Record {
        kind: kind_of(
            words[at],
            words[at + 2],
            words[at + 3],
            words[at + 4],
            words[at + 5],
        ),
        below: words[at + 1] as usize,
    }
}

// As many records as a table holds, or fewer.
pub fn at_most(count: usize) -> usize
    ensures { result ≡ at_most count }
{
    count.min(RECORDS)
}
