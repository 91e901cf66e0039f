// Dosages and applications (document 01, "Objects"), with members in the order of its table.
ghost use Rattle.std.specs.Prelude.{◌≡◌, List, ◌∷◌, ◌++◌, cond, ℕ, ◌<◌, ◌≤◌};
ghost use Rattle.document.specs.Spell.{spell};
ghost use Rattle.document.specs.Plain.{whole, amount};
ghost use Rattle.table_rows.specs.Standing.{tag_at};
ghost use Rattle.write_bytes.specs.Puts.{Lays};
ghost use Rattle.write_details.specs.Prints.{Prints, Opens, Lists, DosagePrints, ApplicationPrints, ApplicationsPrint};

use crate::tag;
use table_rows;
use write_bytes::Output;
use write_numbers;

// A name with what stands in front of it and its colon, and an integer.
pub fn put_integer(out: &mut Output<'_>, name: &[u8], n: u64)
    ensures { (k : List ℕ) → n < 1000000 → Lays out.old (name.now ++ spell (whole n) k) k out.new }
{
    out.put_all(name);
    write_numbers::put_digits(out, n);
}

pub(crate) fn put_decimal(out: &mut Output<'_>, name: &[u8], n: u64)
    ensures { (k : List ℕ) → n < 1000000000000 → Lays out.old (name.now ++ spell (amount n) k) k out.new }
{
    out.put_all(name);
    write_numbers::put_amount(out, n);
}

fn put_simple(words: &[u64], i: usize, out: &mut Output<'_>)
    ensures { tag_at words.now i ≡ 12 → Opens (DosagePrints words.now i) out.old out.new }
{
    put_decimal(out, b"{\"t\":1,\"a\":", table_rows::a(words, i));
}

fn put_from_to(words: &[u64], i: usize, out: &mut Output<'_>)
    ensures { tag_at words.now i ≡ 13 → Opens (DosagePrints words.now i) out.old out.new }
{
    put_decimal(out, b"{\"t\":2,\"aFrom\":", table_rows::a(words, i));
    put_decimal(out, b",\"aTo\":", table_rows::b(words, i));
    put_integer(out, b",\"duU\":", table_rows::c(words, i));
    put_integer(out, b",\"du\":", table_rows::d(words, i));
}

fn put_range(words: &[u64], i: usize, out: &mut Output<'_>)
    ensures { tag_at words.now i ≡ 14 → Opens (DosagePrints words.now i) out.old out.new }
{
    put_decimal(out, b"{\"t\":3,\"aMin\":", table_rows::a(words, i));
    put_decimal(out, b",\"aMax\":", table_rows::b(words, i));
}

// The dosage of record i.
pub(crate) fn put_dosage(words: &[u64], i: usize, out: &mut Output<'_>)
    ensures { Prints (DosagePrints words.now i) out.old out.new }
{
    match table_rows::tag(words, i) {
        tag::SIMPLE => put_simple(words, i, out),
        tag::FROM_TO => put_from_to(words, i, out),
        _ => put_range(words, i, out),
    }
    out.put(b'}');
}

fn put_application(words: &[u64], i: usize, out: &mut Output<'_>)
    requires { i < 64 }
    ensures { Prints (ApplicationPrints words.now i) out.old out.new }
{
    out.put_all(b"{\"do\":");
    put_dosage(words, i + 1, out);
    if table_rows::tag(words, i) == tag::AT_TIME {
        out.put_all(b",\"dt\":\"");
        write_numbers::put_time(out, table_rows::a(words, i));
        out.put_all(b"\"}");
    } else {
        put_integer(out, b",\"s\":", table_rows::a(words, i));
        out.put(b'}');
    }
}

// A comma behind an earlier element.
pub(crate) fn put_comma(out: &mut Output<'_>, later: bool)
    ensures { (k : List ℕ) → Lays out.old (cond later (44 ∷ k) k) k out.new }
{
    if later {
        out.put(b',');
    }
}

// The applications from record i on, up to `end`, with commas between them.
pub(crate) fn put_applications(words: &[u64], i: usize, end: usize, out: &mut Output<'_>)
    requires { end ≤ 64 }
    ensures { Lists (ApplicationsPrint words.now end i) out.old out.new }
{
    let mut r = i;
    while r < end {
        put_comma(out, r != i);
        put_application(words, r, out);
        r += 2;
    }
}
