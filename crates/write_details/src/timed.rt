// Timed dosages (document 01, "Objects").
ghost use Rattle.std.specs.Prelude.{◌≡◌, List, ◌∷◌, ◌++◌, ℕ, ◌+◌, ◌<◌, ◌≤◌};
ghost use Rattle.json_grammar.specs.Tree.{Tree, no_member, Elements};
ghost use Rattle.document.specs.Untable.{days_of};
ghost use Rattle.document.specs.Spell.{spell, first_element};
ghost use Rattle.document.specs.Plain.{typed, field, days_tree};
ghost use Rattle.table_rows.specs.Standing.{tag_at, below_at, a_at};
ghost use Rattle.write_bytes.specs.Puts.{Lays};
ghost use Rattle.write_details.specs.Prints.{Prints, DosagePrints, ApplicationsPrint, PlainPrints, TimedPrints};

use crate::{dosage, tag};
use table_rows;
use write_bytes::Output;
use write_numbers;

const LAST_WEEKDAY: u64 = 7;

const LAST_DAY_OF_MONTH: u64 = 28;

// The days of a set, ascending, with commas between them.
fn put_days(set: u64, last: u64, out: &mut Output<'_>)
    requires { last ≤ 28 }
    ensures { (k : List ℕ) → Lays out.old (first_element (days_tree (days_of last 1 set)) k) (93 ∷ k) out.new }
{
    let mut left = set;
    let mut later = false;
    for day in 1..=last {
        if left % 2 == 1 {
            dosage::put_comma(out, later);
            write_numbers::put_digits(out, day);
            later = true;
        }
        left /= 2;
    }
}

// A timed dosage with a list of applications: `name` is all in front of the list.
fn put_listed(words: &[u64], i: usize, name: &[u8], out: &mut Output<'_>)
    requires { i ≤ 66 }
    ensures { (ts : Elements) (k : List ℕ) → i + 1 + below_at words.now i ≤ 64 → ApplicationsPrint words.now (i + 1 + below_at words.now i) (i + 1) ts → Lays out.old (name.now ++ first_element ts (125 ∷ k)) k out.new }
{
    out.put_all(name);
    dosage::put_applications(words, i + 1, table_rows::behind(words, i), out);
    out.put_all(b"]}");
}

fn put_dosage_only(words: &[u64], i: usize, out: &mut Output<'_>)
    requires { i ≤ 66 }
    ensures { (d : Tree) (k : List ℕ) → DosagePrints words.now (i + 1) d → Lays out.old (spell (typed 1 (field "do" d no_member)) k) k out.new }
{
    out.put_all(b"{\"t\":1,\"do\":");
    dosage::put_dosage(words, i + 1, out);
    out.put(b'}');
}

// A timed dosage of type 1, 2 or 3.
fn put_plain(words: &[u64], i: usize, out: &mut Output<'_>)
    requires { i ≤ 66 }
    ensures { Prints (PlainPrints words.now i) out.old out.new }
{
    match table_rows::tag(words, i) {
        tag::TIMES => put_listed(words, i, b"{\"t\":2,\"ts\":[", out),
        tag::DAY_SEGMENTS => put_listed(words, i, b"{\"t\":3,\"ss\":[", out),
        _ => put_dosage_only(words, i, out),
    }
}

// Days and the timed dosage of each: `name` is all in front of the days.
fn put_under_days(words: &[u64], i: usize, name: &[u8], last: u64, out: &mut Output<'_>)
    requires { (i ≤ 65) × (last ≤ 28) }
    ensures { (t : Tree) (k : List ℕ) → i < 64 → PlainPrints words.now (i + 1) t → Lays out.old (name.now ++ first_element (days_tree (days_of last 1 (a_at words.now i))) (44 ∷ 34 ∷ 116 ∷ 100 ∷ 111 ∷ 34 ∷ 58 ∷ spell t (125 ∷ k))) k out.new }
{
    out.put_all(name);
    put_days(table_rows::a(words, i), last, out);
    out.put_all(b"],\"tdo\":");
    put_plain(words, i + 1, out);
    out.put(b'}');
}

fn put_interval(words: &[u64], i: usize, out: &mut Output<'_>)
    requires { i ≤ 65 }
    ensures { tag_at words.now i ≡ 11 → Prints (TimedPrints words.now i) out.old out.new }
{
    out.put_all(b"{\"t\":6,\"do\":");
    dosage::put_dosage(words, i + 1, out);
    dosage::put_integer(out, b",\"miDu\":", table_rows::a(words, i));
    dosage::put_integer(out, b",\"miDuU\":", table_rows::b(words, i));
    out.put(b'}');
}

pub(crate) fn put_timed(words: &[u64], i: usize, out: &mut Output<'_>)
    requires { i ≤ 65 }
    ensures { Prints (TimedPrints words.now i) out.old out.new }
{
    match table_rows::tag(words, i) {
        tag::WEEK_DAYS => put_under_days(words, i, b"{\"t\":4,\"wds\":[", LAST_WEEKDAY, out),
        tag::DAYS_OF_MONTH => put_under_days(
            words,
            i,
            b"{\"t\":5,\"doms\":[",
            LAST_DAY_OF_MONTH,
            out,
        ),
        tag::INTERVAL => put_interval(words, i, out),
        _ => put_plain(words, i, out),
    }
}
