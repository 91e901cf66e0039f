// The table made of the words that were read, and the strings laid into the lent buffer: both after acceptance alone.
#![tactic(auto)]

ghost use Rattle.std.specs.Prelude.{◌≡◌, ◌++◌, ◌-◌, ◌≤◌, replicate};
ghost use Rattle.document.specs.Table.{no_record};
ghost use Rattle.read_table.specs.Built.{records_of, piece_cell, head_cells, built, laid_rows, laid_piece, strings_laid};

use document::table::{Head, Kind, RECORDS, Record, Table, Text, WIDTH, WORDS};
use read_records::read::{HeadRead, Piece};

fn records_of(words: &[u64; WORDS], count: usize) -> [Record; RECORDS]
    requires { count ≤ 64 }
    ensures { result ≡ records_of count words.now ++ replicate (64 - count) no_record }
{
    let mut records = [Record {
        kind: Kind::None,
        below: 0,
    }; RECORDS];
    for i in 0..count {
        records[i] = table_kinds::record_at(words, i * WIDTH);
    }
    records
}

fn text_of(p: Piece) -> Text
    ensures { result ≡ piece_cell p }
{
    Text {
        start: p.start,
        len: p.len,
    }
}

pub fn head_of(h: HeadRead) -> Head
    ensures { result ≡ head_cells h }
{
    Head {
        from: h.from,
        to: h.to,
        reserve: h.reserve,
        meal: h.meal,
        unit: text_of(h.unit),
        instructions: text_of(h.instructions),
        roa: text_of(h.roa),
        moa: text_of(h.moa),
    }
}

pub fn table_of(h: HeadRead, words: &[u64; WORDS]) -> Table
    ensures { result ≡ built h words.now }
{
    let count = table_kinds::at_most(h.used.records);
    Table {
        head: head_of(h),
        count,
        text: h.used.text,
        records: records_of(words, count),
    }
}

// The strings of the records, in visiting order: FreeText's record has its quote's place.
fn lay_records(text: &[u8], words: &[u64; WORDS], count: usize, strings: &mut [u8])
    requires { count ≤ 64 }
    ensures { strings.new ≡ laid_rows text.now count words.now strings.old }
{
    for i in 0..count {
        let at = i * WIDTH;
        if words[at] == 2 {
            let quote = words[at + 4] as usize;
            let start = words[at + 2] as usize;
            json_lay::lay(text, quote, strings, start);
        }
    }
}

fn lay_piece(text: &[u8], p: Piece, strings: &mut [u8])
    ensures { strings.new ≡ laid_piece text.now p strings.old }
{
    if p.len != 0 {
        json_lay::lay(text, p.quote, strings, p.start);
    }
}

pub fn lay_strings(text: &[u8], h: HeadRead, words: &[u64; WORDS], strings: &mut [u8])
    ensures { strings.new ≡ strings_laid text.now h words.now strings.old }
{
    lay_records(text, words, table_kinds::at_most(h.used.records), strings);
    lay_piece(text, h.unit, strings);
    lay_piece(text, h.instructions, strings);
    lay_piece(text, h.roa, strings);
    lay_piece(text, h.moa, strings);
}
