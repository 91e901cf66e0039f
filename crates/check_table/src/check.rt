// Whether words lay out the records of a valid posology (document 01, row 18).
ghost use Rattle.std.specs.Prelude.{◌≡◌, ◌+◌, ◌*◌, ◌<◌, ◌≤◌, length, take, drop};
ghost use Rattle.document.specs.Utf8.{is_utf8};
ghost use Rattle.document.specs.Words.{width, words_at_most};
ghost use Rattle.check_doses.specs.Shapes.{Decides};
ghost use Rattle.check_table.specs.Checks.{Checks, StringAt, FreeTextAt, DetailAt, ObjectAt, ObjectsAt, SequenceAt, Zeros};

use check_doses::{BLANK, Bounds, INTEGER, SOME_BELOW, Shape, UNIT, nested, row, still};
use document::table::{WIDTH, WORDS};
use std::str;
use table_rows::below;

const SEQUENCE: Shape = Shape {
    tag: 5,
    below: SOME_BELOW,
    ..BLANK
};

const POSOLOGY: Shape = Shape {
    tag: 15,
    below: SOME_BELOW,
    a: INTEGER,
    b: UNIT,
    ..BLANK
};

const PAUSE: Shape = Shape {
    tag: 16,
    a: INTEGER,
    b: UNIT,
    ..BLANK
};

// Whether so many bytes of the buffer behind the first `text` are UTF-8.
fn utf8_part(buffer: &[u8], text: usize, len: usize) -> bool
    requires { text + len ≤ length buffer.now }
    ensures { result ≡ is_utf8 (take len (drop text buffer.now)) }
{
    str::from_utf8(&buffer[text..text + len]).is_ok()
}

// A string of the buffer, right behind the text bytes that are taken, not empty and UTF-8.
pub(crate) fn string(buffer: &[u8], start: usize, len: usize, text: usize) -> bool
    ensures { Decides (StringAt buffer.now text start len) result }
{
    start == text
        && 0 < len
        && text <= buffer.len()
        && len <= buffer.len() - text
        && utf8_part(buffer, text, len)
}

fn free_text(words: &[u64; WORDS], i: usize, buffer: &[u8], text: usize) -> bool
    ensures { Decides (FreeTextAt words.now buffer.now i text) result }
{
    if buffer.len() < text {
        return false;
    }
    let shape = Shape {
        tag: 2,
        a: Bounds {
            least: text as u64,
            most: text as u64,
        },
        b: Bounds {
            least: 1,
            most: (buffer.len() - text) as u64,
        },
        ..BLANK
    };
    row(words, i, shape) && utf8_part(buffer, text, table_rows::b(words, i) as usize)
}

// One object of a sequence at i.
#[cycle(details)]
fn object(words: &[u64; WORDS], i: usize, left: usize, buffer: &[u8], text: usize) -> Option<usize>
    ensures { Checks (λ u. ObjectAt words.now buffer.now left i text u) result }
{
    if row(words, i, PAUSE) {
        return Some(text);
    }
    if !row(words, i, POSOLOGY) || !nested(words, i) {
        return None;
    }
    detail(words, i + 1, left, buffer, text)
}

// The objects from i on, up to record `end`: at least one.
#[cycle(details)]
fn objects(
    words: &[u64; WORDS],
    i: usize,
    end: usize,
    left: usize,
    buffer: &[u8],
    text: usize,
) -> Option<usize>
    requires { end ≤ 128 }
    ensures { Checks (λ u. ObjectsAt words.now buffer.now left end i text u) result }
{
    let mut at = i;
    let mut used = text;
    while at < end {
        used = object(words, at, left, buffer, used)?;
        at += 1 + below(words, at);
        if at == end {
            return Some(used);
        }
    }
    None
}

#[cycle(details)]
fn sequence(
    words: &[u64; WORDS],
    i: usize,
    left: usize,
    buffer: &[u8],
    text: usize,
) -> Option<usize>
    ensures { Checks (λ u. SequenceAt words.now buffer.now left i text u) result }
{
    if left == 0 || !row(words, i, SEQUENCE) {
        return None;
    }
    let first = i + 1;
    let end = first + below(words, i);
    objects(words, first, end, left - 1, buffer, text)
}

// A detail at i, in which so many sequences may still open: the text bytes taken with it.
#[cycle(details)]
pub(crate) fn detail(
    words: &[u64; WORDS],
    i: usize,
    left: usize,
    buffer: &[u8],
    text: usize,
) -> Option<usize>
    ensures { Checks (λ u. DetailAt words.now buffer.now left i text u) result }
{
    if still(words, i) {
        return Some(text);
    }
    if free_text(words, i, buffer, text) {
        return Some(text + table_rows::b(words, i) as usize);
    }
    sequence(words, i, left, buffer, text)
}

// The words from record i on are zero. They are looked at without an exit between them, so that a processor takes several at once.
pub(crate) fn unused(words: &[u64], i: usize) -> bool
    requires { (length words.now ≡ words_at_most) × (i ≤ 64) }
    ensures { Decides (Zeros words.now (i * width)) result }
{
    let mut zero = true;
    for word in &words[i * WIDTH..] {
        zero &= *word == 0;
    }
    zero
}
