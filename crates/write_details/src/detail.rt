// Details and the objects of a sequence (document 01, "Objects").
ghost use Rattle.std.specs.Prelude.{◌≡◌, List, ◌∷◌, ◌++◌, ℕ, ◌+◌, ◌<◌, ◌≤◌, length, take, drop};
ghost use Rattle.document.specs.Spell.{spell};
ghost use Rattle.document.specs.Schema.{greatest_integer};
ghost use Rattle.document.specs.Plain.{whole};
ghost use Rattle.table_rows.specs.Standing.{tag_at, a_at, b_at};
ghost use Rattle.write_bytes.specs.Puts.{Lays};
ghost use Rattle.write_details.specs.Prints.{Prints, Lists, DetailPrints, ObjectPrints, ObjectsPrint};

use crate::{dosage, tag, timed};
use document::table::RECORDS;
use table_rows;
use write_bytes::Output;
use write_numbers;
use write_strings;

fn put_daily(words: &[u64], i: usize, out: &mut Output<'_>)
    requires { i ≤ 64 }
    ensures { (buffer : List ℕ) (left : ℕ) → tag_at words.now i ≡ 1 → Prints (DetailPrints words.now buffer left i) out.old out.new }
{
    dosage::put_decimal(out, b"{\"t\":1,\"ds\":[", table_rows::a(words, i));
    dosage::put_decimal(out, b",", table_rows::b(words, i));
    dosage::put_decimal(out, b",", table_rows::c(words, i));
    dosage::put_decimal(out, b",", table_rows::d(words, i));
    out.put_all(b"]}");
}

// So many bytes of the buffer, and none where they do not lie there.
pub fn part(buffer: &[u8], start: u64, len: u64) -> &[u8]
    ensures { start + len ≤ length buffer.now → result.now ≡ take len (drop start buffer.now) }
{
    if (buffer.len() as u64) < start {
        return &buffer[..0];
    }
    let from = start as usize;
    if ((buffer.len() - from) as u64) < len {
        return &buffer[..0];
    }
    let end = from + len as usize;
    &buffer[from..end]
}

fn put_free_text(words: &[u64], i: usize, buffer: &[u8], out: &mut Output<'_>)
    requires { i ≤ 64 }
    ensures { (left : ℕ) → tag_at words.now i ≡ 2 → Prints (DetailPrints words.now buffer.now left i) out.old out.new }
{
    out.put_all(b"{\"t\":2,\"text\":");
    let text = part(buffer, table_rows::a(words, i), table_rows::b(words, i));
    write_strings::put_string(out, text);
    out.put(b'}');
}

fn put_single(words: &[u64], i: usize, out: &mut Output<'_>)
    requires { i ≤ 64 }
    ensures { (buffer : List ℕ) (left : ℕ) → tag_at words.now i ≡ 3 → Prints (DetailPrints words.now buffer left i) out.old out.new }
{
    out.put_all(b"{\"t\":3,\"tdo\":");
    timed::put_timed(words, i + 1, out);
    out.put(b'}');
}

fn put_cyclic(words: &[u64], i: usize, out: &mut Output<'_>)
    requires { i ≤ 64 }
    ensures { (buffer : List ℕ) (left : ℕ) → tag_at words.now i ≡ 4 → Prints (DetailPrints words.now buffer left i) out.old out.new }
{
    dosage::put_integer(out, b"{\"t\":4,\"cyDuU\":", table_rows::a(words, i));
    dosage::put_integer(out, b",\"cyDu\":", table_rows::b(words, i));
    out.put_all(b",\"tdo\":");
    timed::put_timed(words, i + 1, out);
    write_numbers::put_per_cycle(out, table_rows::c(words, i));
}

// A pause, or the start of a posology in a sequence.
fn put_span(words: &[u64], i: usize, name: &[u8], out: &mut Output<'_>)
    ensures { (k : List ℕ) → i < 64 → a_at words.now i ≤ greatest_integer → b_at words.now i ≤ 7 → Lays out.old (name.now ++ spell (whole (a_at words.now i)) (44 ∷ 34 ∷ 100 ∷ 117 ∷ 85 ∷ 34 ∷ 58 ∷ spell (whole (b_at words.now i)) k)) k out.new }
{
    dosage::put_integer(out, name, table_rows::a(words, i));
    dosage::put_integer(out, b",\"duU\":", table_rows::b(words, i));
}

fn put_pause(words: &[u64], i: usize, out: &mut Output<'_>)
    requires { i ≤ 64 }
    ensures { (buffer : List ℕ) (left : ℕ) → tag_at words.now i ≡ 16 → Prints (ObjectPrints words.now buffer left i) out.old out.new }
{
    put_span(words, i, b"{\"t\":2,\"du\":", out);
    out.put(b'}');
}

#[cycle(details)]
fn put_object(words: &[u64], i: usize, left: usize, buffer: &[u8], out: &mut Output<'_>)
    requires { i < 64 }
    ensures { Prints (ObjectPrints words.now buffer.now left i) out.old out.new }
{
    if table_rows::tag(words, i) == tag::PAUSE {
        put_pause(words, i, out);
        return;
    }
    put_span(words, i, b"{\"t\":1,\"du\":", out);
    out.put_all(b",\"po\":");
    put_detail(words, i + 1, left, buffer, out);
    out.put(b'}');
}

// The objects from record i on, up to `end`, with commas between them.
#[cycle(details)]
fn put_objects(
    words: &[u64],
    i: usize,
    end: usize,
    left: usize,
    buffer: &[u8],
    out: &mut Output<'_>,
)
    requires { end ≤ 64 }
    ensures { Lists (ObjectsPrint words.now buffer.now left end i) out.old out.new }
{
    let mut r = i;
    while r < end {
        dosage::put_comma(out, r != i);
        put_object(words, r, left, buffer, out);
        r = table_rows::behind(words, r);
    }
}

#[cycle(details)]
fn put_sequence(words: &[u64], i: usize, left: usize, buffer: &[u8], out: &mut Output<'_>)
    requires { i ≤ 64 }
    ensures { tag_at words.now i ≡ 5 → Prints (DetailPrints words.now buffer.now left i) out.old out.new }
{
    out.put_all(b"{\"t\":5,\"sos\":[");
    if left == 0 {
        return;
    }
    let end = table_rows::behind(words, i);
    put_objects(words, i + 1, end, left - 1, buffer, out);
    out.put_all(b"]}");
}

// The detail of record i, in which so many sequences may still open.
#[cycle(details)]
fn put_detail(words: &[u64], i: usize, left: usize, buffer: &[u8], out: &mut Output<'_>)
    requires { i ≤ 64 }
    ensures { Prints (DetailPrints words.now buffer.now left i) out.old out.new }
{
    match table_rows::tag(words, i) {
        tag::DAILY => put_daily(words, i, out),
        tag::FREE_TEXT => put_free_text(words, i, buffer, out),
        tag::SINGLE => put_single(words, i, out),
        tag::CYCLIC => put_cyclic(words, i, out),
        _ => put_sequence(words, i, left, buffer, out),
    }
}

// "at most 3 sequences inside one another"
const SEQUENCES: usize = 3;

// The detail of a posology, whose records begin at record i.
pub fn put_po(words: &[u64], i: usize, buffer: &[u8], out: &mut Output<'_>)
    ensures { Prints (DetailPrints words.now buffer.now 3 i) out.old out.new }
{
    if i < RECORDS {
        put_detail(words, i, SEQUENCES, buffer, out);
    }
}
