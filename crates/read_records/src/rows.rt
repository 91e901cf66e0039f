// The records as they are read, in visiting order.
ghost use Rattle.std.specs.Prelude.{◌≡◌, ◌-◌, leb};
ghost use Rattle.document.specs.Words.{words as words_of};
ghost use Rattle.table_rows.specs.Storing.{written};

use document::table::RECORDS;
use document::terms::Used;
use table_rows::Row;

pub fn is_full(used: Used) -> bool
    ensures { result ≡ leb 64 used.records }
{
    RECORDS <= used.records
}

// Record i, once those below it are visited: they took up to `used`.
pub fn store(words: &mut [u64], i: usize, used: Used, tag: u64, a: u64, b: u64, c: u64, d: u64)
    ensures { words.new ≡ written words.old i (words_of (used.records - i - 1) tag a b c d) }
{
    let row = Row {
        tag,
        below: used.records.saturating_sub(i).saturating_sub(1),
        a,
        b,
        c,
        d,
    };
    table_rows::put(words, i, row);
}
