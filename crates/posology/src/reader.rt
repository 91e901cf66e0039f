// Reading one posology text (document 01, "What the part does" and "Answers by number").
ghost use Rattle.std.specs.Prelude.{◌≡◌, length};
ghost use Rattle.document.specs.Values.{answer_values};
ghost use Rattle.document.specs.Answer.{Reads, terms_of, read_walked};
ghost use Rattle.document.specs.Table.{empty_table, no_text};
ghost use Rattle.document.specs.Valid.{room_of};
ghost use Rattle.posology.specs.Reader.{Walked, words_values, words_table, WordsOf, ReadsWords};

use document::refusal::Refusal;
use document::table::{Date, Head, Kind, RECORDS, Reading, Record, TEXT_ROOM, Table, Text, WORDS};
use document::terms;
use document::terms::Terms;
use read_head::head;
use read_records::read::HeadRead;

fn no_text() -> Text
    ensures { result ≡ no_text }
{
    Text { start: 0, len: 0 }
}

pub fn empty_table() -> Table
    ensures { result ≡ empty_table }
{
    Table {
        head: Head {
            from: Date::Absent,
            to: Date::Absent,
            reserve: false,
            meal: 0,
            unit: no_text(),
            instructions: no_text(),
            roa: no_text(),
            moa: no_text(),
        },
        count: 0,
        text: 0,
        records: [Record {
            kind: Kind::None,
            below: 0,
        }; RECORDS],
    }
}

// "Text room is the buffer's length or 2,048 bytes, the smaller."
fn room_of(strings: &[u8]) -> usize
    ensures { result ≡ room_of (length strings.now) }
{
    strings.len().min(TEXT_ROOM)
}

// A text that was walked. The strings are laid after acceptance alone.
pub(crate) fn walked_words(
    text: &[u8],
    purpose: u64,
    strings: &mut [u8],
    words: &mut [u64; WORDS],
) -> Result<HeadRead, Refusal>
    requires { Walked text.now }
    ensures { WordsOf (read_walked (terms_of purpose strings.old) text.now) strings.old result words.new strings.new }
{
    let brace = json_scan::byte::blanks_end(text, 0);
    let terms = Terms {
        purpose,
        room: room_of(strings),
    };
    let h = head::read_head(text, brace, terms, terms::none_used(), words)?;
    read_table::lay_strings(text, h, words, strings);
    Ok(h)
}

// A text read as far as its head and the words of its records: of these a table is made, or the hospital's area.
pub fn read_words(
    text: &[u8],
    purpose: u64,
    strings: &mut [u8],
    words: &mut [u64; WORDS],
) -> Result<HeadRead, Refusal>
    ensures { ReadsWords purpose text.now strings.old result words.new strings.new }
{
    read_text::one_text(text, purpose)?;
    walked_words(text, purpose, strings, words)
}

#[tactic(auto, unfolding(crate::specs::Reader::words_table))]
fn reading_of(r: Result<HeadRead, Refusal>, words: &[u64; WORDS]) -> Reading
    ensures answer_value { answer_values result.answer ≡ words_values r }
    ensures table_value { result.table ≡ words_table r words.now }
{
    match r {
        Ok(h) => Reading {
            answer: Ok(()),
            table: read_table::table_of(h, words),
        },
        Err(why) => Reading {
            answer: Err(why),
            table: empty_table(),
        },
    }
}

pub fn read(text: &[u8], purpose: u64, strings: &mut [u8]) -> Reading
    ensures { Reads purpose text.now strings.old result strings.new }
{
    let mut words = [0u64; WORDS];
    let r = read_words(text, purpose, strings, &mut words);
    reading_of(r, &words)
}
