// A record's words among those of a table: its tag, the records below it and four values, read and stored.
#![tactic(auto)]

ghost use Rattle.std.specs.Prelude.{◌≡◌, ◌+◌, min};
ghost use Rattle.table_rows.specs.Standing.{place, word_at, tag_at, below_at, a_at, b_at, c_at, d_at, Tells};
ghost use Rattle.table_rows.specs.Storing.{of_row, written};

use document::table::{RECORDS, WIDTH, WORDS};

// What is stored of a record.
#[derive(Clone, Copy)]
pub struct Row {
    pub tag: u64,
    pub below: usize,
    pub a: u64,
    pub b: u64,
    pub c: u64,
    pub d: u64,
}

// One of the six words of a record.
#[derive(Clone, Copy)]
enum Column {
    Tag,
    Below,
    A,
    B,
    C,
    D,
}

// Record i's word in this column, 0 where there are fewer words.
fn word(words: &[u64], i: usize, column: Column) -> u64
    ensures { Tells i (word_at words.now i (place column)) result }
{
    if RECORDS <= i {
        return 0;
    }
    let at = i * WIDTH + column as usize;
    words.get(at).copied().unwrap_or(0)
}

pub fn tag(words: &[u64], i: usize) -> u64
    ensures { Tells i (tag_at words.now i) result }
{
    word(words, i, Column::Tag)
}

// The records below record i.
pub fn below(words: &[u64], i: usize) -> usize
    ensures { Tells i (below_at words.now i) result }
{
    word(words, i, Column::Below) as usize
}

pub fn a(words: &[u64], i: usize) -> u64
    ensures { Tells i (a_at words.now i) result }
{
    word(words, i, Column::A)
}

pub fn b(words: &[u64], i: usize) -> u64
    ensures { Tells i (b_at words.now i) result }
{
    word(words, i, Column::B)
}

pub fn c(words: &[u64], i: usize) -> u64
    ensures { Tells i (c_at words.now i) result }
{
    word(words, i, Column::C)
}

pub fn d(words: &[u64], i: usize) -> u64
    ensures { Tells i (d_at words.now i) result }
{
    word(words, i, Column::D)
}

// The record behind those below record i, none behind the table's last.
pub fn behind(words: &[u64], i: usize) -> usize
    ensures { result ≡ min (i + 1 + below_at words.now i) 64 }
{
    if i < RECORDS {
        let n = below(words, i);
        let left = RECORDS - 1 - i;
        if n <= left {
            return i + 1 + n;
        }
    }
    RECORDS
}

// Words of another number, or an i that is none of the table's records, are left as they are.
pub fn put(words: &mut [u64], i: usize, row: Row)
    ensures { words.new ≡ written words.old i (of_row row) }
{
    if words.len() != WORDS || RECORDS <= i {
        return;
    }
    let at = i * WIDTH;
    words[at] = row.tag;
    words[at + 1] = row.below as u64;
    words[at + 2] = row.a;
    words[at + 3] = row.b;
    words[at + 4] = row.c;
    words[at + 5] = row.d;
}
