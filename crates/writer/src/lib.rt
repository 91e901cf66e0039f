// Writing a table (document 01, "Answers by number": 17, 18, 19).
#![tactic(auto)]

mod measuring;

ghost use Rattle.std.specs.Prelude.{◌≡◌, [], ◌≤◌, length};
ghost use Rattle.json_grammar.specs.Tree.{Tree};
ghost use Rattle.document.specs.Write.{Writes};
ghost use Rattle.document.specs.Length.{bound, longest};
ghost use Rattle.write_bytes.specs.Puts.{greatest_place};
ghost use Rattle.write_details.specs.Prints.{DetailPrints};
ghost use Rattle.write_posology.specs.Heads.{head_fields, Writable};
ghost use Rattle.writer.specs.Fits.{Fits};
ghost use Rattle.writer.specs.ByWords.{WritesWords};

use check_table::is_readable;
use document::refusal::{Reason, Refusal};
use document::table::{Head, LONGEST_PLAIN, RECORDS, TEXT_ROOM, Table, WORDS};
use document::uses::is_use;
pub use measuring::{length, needed};
use table_words::table_words;

// As long as the plain text of a table with so many records and text bytes is at most (document 02, Wish 10).
pub fn longest(count: usize, text: usize) -> usize
    ensures { result ≡ longest count text }
{
    if count <= RECORDS && text <= TEXT_ROOM {
        return 6 * text + 128 * count + 256;
    }
    LONGEST_PLAIN
}

// The text is measured before it is laid: one that does not fit changes nothing.
fn write_measured(h: Head, words: &[u64], strings: &[u8], out: &mut [u8]) -> Result<usize, Refusal>
    ensures { (t : Tree) → Writable strings.now h → DetailPrints words.now strings.now 3 0 t → length (head_fields strings.now h t []) ≤ greatest_place → Fits (head_fields strings.now h t []) out.old result out.new }
{
    let mut nowhere = [0u8; 1];
    let n = write_posology::put_posology(&mut nowhere, 0, h, words, 0, strings);
    if out.len() < n {
        return Err(Refusal(Reason::BufferTooShort, n));
    }
    let _ = write_posology::put_posology(out, 0, h, words, 0, strings);
    Ok(n)
}

// A buffer that holds the longest text of such a table holds this one.
fn write_fitting(
    h: Head,
    count: usize,
    text: usize,
    words: &[u64],
    strings: &[u8],
    out: &mut [u8],
) -> Result<usize, Refusal>
    requires { (count ≤ 64) × (text ≤ 2048) }
    ensures { (t : Tree) → Writable strings.now h → DetailPrints words.now strings.now 3 0 t → length (head_fields strings.now h t []) ≤ bound count text → Fits (head_fields strings.now h t []) out.old result out.new }
{
    if longest(count, text) <= out.len() {
        let n = write_posology::put_posology(out, 0, h, words, 0, strings);
        return Ok(n);
    }
    write_measured(h, words, strings, out)
}

// Writes a table by its head, its two counts and the words of its records.
pub fn write_words(
    h: Head,
    count: usize,
    text: usize,
    words: &[u64; WORDS],
    strings: &[u8],
    purpose: u64,
    out: &mut [u8],
) -> Result<usize, Refusal>
    ensures { WritesWords purpose h count text words.now strings.now out.old result out.new }
{
    if !is_use(purpose) {
        return Err(Refusal(Reason::WrongUse, 0));
    }
    if !is_readable(h, count, text, words, strings, purpose) {
        return Err(Refusal(Reason::NotReadable, 0));
    }
    write_fitting(h, count, text, words, strings, out)
}

// Writes the table's plain text into `out`: `strings` is its text buffer.
pub fn write(t: Table, strings: &[u8], purpose: u64, out: &mut [u8]) -> Result<usize, Refusal>
    ensures { Writes purpose t strings.now out.old result out.new }
{
    let words = table_words(t);
    write_words(t.head, t.count, t.text, &words, strings, purpose, out)
}
