// Reading the first posology of a run (document 01, "Answers by number", the last paragraph).
ghost use Rattle.std.specs.Prelude.{◌≡◌};
ghost use Rattle.document.specs.Answer.{ReadsNext, up_to, terms_of, read_walked};
ghost use Rattle.posology.specs.Reader.{Walked};
ghost use Rattle.posology.specs.Next.{next_words_values, next_words_table, NextWordsOf, ReadsNextWords};
ghost use Rattle.document.specs.Values.{next_values};

use crate::reader;
use document::refusal::Refusal;
use document::table::{Next, NextReading, Table, WORDS};
use read_records::read::HeadRead;

// What a run begins with: a posology, with the place behind its last byte and its head; or only blanks remain.
#[derive(Clone, Copy)]
pub enum NextWords {
    Taken { end: usize, head: HeadRead },
    Blank { length: usize },
}

// The text that ends at e: reading it looks no further.
fn taken(
    run: &[u8],
    e: usize,
    purpose: u64,
    strings: &mut [u8],
    words: &mut [u64; WORDS],
) -> Result<NextWords, Refusal>
    requires { Walked run.now }
    ensures { NextWordsOf (up_to e (read_walked (terms_of purpose strings.old) run.now)) strings.old result words.new strings.new }
{
    let head = reader::walked_words(run, purpose, strings, words)?;
    Ok(NextWords::Taken { end: e, head })
}

// The first posology of a run read as far as its head and the words of its records.
pub fn next_words(
    run: &[u8],
    purpose: u64,
    strings: &mut [u8],
    words: &mut [u64; WORDS],
) -> Result<NextWords, Refusal>
    ensures { ReadsNextWords purpose run.now strings.old result words.new strings.new }
{
    match read_text::first_text(run, purpose)? {
        Next::Taken { end } => taken(run, end, purpose, strings, words),
        Next::Blank { length } => Ok(NextWords::Blank { length }),
    }
}

pub fn answer_of(r: Result<NextWords, Refusal>) -> Result<Next, Refusal>
    ensures { next_values result ≡ next_words_values r }
{
    match r {
        Ok(NextWords::Taken { end, head: _ }) => Ok(Next::Taken { end }),
        Ok(NextWords::Blank { length }) => Ok(Next::Blank { length }),
        Err(why) => Err(why),
    }
}

#[tactic(auto, unfolding(crate::specs::Next::next_words_table))]
fn table_of(r: Result<NextWords, Refusal>, words: &[u64; WORDS]) -> Table
    ensures { result ≡ next_words_table r words.now }
{
    match r {
        Ok(NextWords::Taken { end: _, head }) => read_table::table_of(head, words),
        Ok(NextWords::Blank { length: _ }) => reader::empty_table(),
        Err(_) => reader::empty_table(),
    }
}

pub fn read_next(run: &[u8], purpose: u64, strings: &mut [u8]) -> NextReading
    ensures { ReadsNext purpose run.now strings.old result strings.new }
{
    let mut words = [0u64; WORDS];
    let r = next_words(run, purpose, strings, &mut words);
    NextReading {
        answer: answer_of(r),
        table: table_of(r, &words),
    }
}
