// A table's records as words: tag, records below, four values (document's Words).
#![tactic(auto)]

ghost use Rattle.std.specs.Prelude.{◌≡◌, List, ◌≤◌, length};
ghost use Rattle.document.specs.Words.{words, words_at_most, dosage_words, kind_words, all_words, rows};
ghost use Rattle.document.specs.declared.table.Record.{Record};
ghost use Rattle.table_kinds.specs.Kinds.{records_in};
ghost use Rattle.table_rows.specs.Storing.{of_row};
ghost use Rattle.table_words.specs.Laying.{Upto, Makes, Unused};

use document::table::{Dosage, Kind, RECORDS, Table, WIDTH, WORDS};
use table_rows::Row;

// The words of a record that is not used.
const UNUSED: Row = Row {
    tag: 0,
    below: 0,
    a: 0,
    b: 0,
    c: 0,
    d: 0,
};

fn dosage_row(below: usize, s: Dosage) -> Row
    ensures { of_row result ≡ dosage_words below s }
{
    let own = Row { below, ..UNUSED };
    match s {
        Dosage::Simple { amount } => Row {
            tag: 12,
            a: amount,
            ..own
        },
        Dosage::FromTo {
            from,
            to,
            unit,
            duration,
        } => Row {
            tag: 13,
            below,
            a: from,
            b: to,
            c: u64::from(unit),
            d: u64::from(duration),
        },
        Dosage::Range { min, max } => Row {
            tag: 14,
            a: min,
            b: max,
            ..own
        },
    }
}

fn kind_row(below: usize, k: Kind) -> Row
    ensures { of_row result ≡ kind_words below k }
{
    let own = Row { below, ..UNUSED };
    match k {
        Kind::None => own,
        Kind::Daily {
            morning,
            noon,
            evening,
            night,
        } => Row {
            tag: 1,
            below,
            a: morning,
            b: noon,
            c: evening,
            d: night,
        },
        Kind::FreeText { text } => Row {
            tag: 2,
            a: text.start as u64,
            b: text.len as u64,
            ..own
        },
        Kind::Single => Row { tag: 3, ..own },
        Kind::Cyclic {
            unit,
            duration,
            per_cycle,
        } => Row {
            tag: 4,
            a: u64::from(unit),
            b: u64::from(duration),
            c: u64::from(per_cycle),
            ..own
        },
        Kind::Sequence => Row { tag: 5, ..own },
        Kind::DosageOnly => Row { tag: 6, ..own },
        Kind::Times => Row { tag: 7, ..own },
        Kind::DaySegments => Row { tag: 8, ..own },
        Kind::WeekDays { days } => Row {
            tag: 9,
            a: u64::from(days),
            ..own
        },
        Kind::DaysOfMonth { days } => Row {
            tag: 10,
            a: u64::from(days),
            ..own
        },
        Kind::Interval { duration, unit } => lasting(11, below, duration, unit),
        Kind::Dosage { dosage } => dosage_row(below, dosage),
        Kind::PosologySequence { duration, unit } => lasting(15, below, duration, unit),
        Kind::Pause { duration, unit } => lasting(16, below, duration, unit),
        Kind::AtTime { second } => Row {
            tag: 17,
            a: u64::from(second),
            ..own
        },
        Kind::InSegment { segment } => Row {
            tag: 18,
            a: u64::from(segment),
            ..own
        },
    }
}

// A record of a duration and its unit.
fn lasting(tag: u64, below: usize, duration: u32, unit: u8) -> Row
    ensures { of_row result ≡ words below tag duration unit 0 0 }
{
    Row {
        tag,
        below,
        a: u64::from(duration),
        b: u64::from(unit),
        ..UNUSED
    }
}

// The words of the table's records.
pub fn table_words(t: Table) -> [u64; WORDS]
    ensures { result ≡ rows (all_words t.records) }
{
    let mut out = [0; WORDS];
    for i in 0..RECORDS {
        let r = t.records[i];
        table_rows::put(&mut out, i, kind_row(r.below, r.kind));
    }
    out
}

// From record `from` on the words are those of unused records.
fn lay_unused(words: &mut [u64], from: usize)
    requires { length words.old ≡ words_at_most }
    ensures { (rs : List Record) → Upto rs words.old from → Unused rs from → words.new ≡ rows (all_words rs) }
{
    for i in from..RECORDS {
        table_rows::put(words, i, UNUSED);
    }
}

// The first records' words, made anew: a value that a record does not hold, as the quote's place of a FreeText, is not kept.
fn lay_made(words: &mut [u64], count: usize)
    requires { (length words.old ≡ words_at_most) × (count ≤ 64) }
    ensures upto { (rs : List Record) → Makes rs count words.old → Upto rs words.new count }
    ensures words_len { length words.new ≡ words_at_most }
{
    for i in 0..count {
        let r = table_kinds::record_at(words, i * WIDTH);
        table_rows::put(words, i, kind_row(r.below, r.kind));
    }
}

// Words that were read, made the words of the table's records.
pub fn tidy(words: &mut [u64; WORDS], count: usize)
    ensures { words.new ≡ rows (all_words (records_in count words.old)) }
{
    let n = table_kinds::at_most(count);
    lay_made(words, n);
    lay_unused(words, n);
}
