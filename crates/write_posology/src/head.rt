// The fields of a posology around its detail, and the whole text (document 01, "Objects": Posology).
ghost use Rattle.std.specs.Prelude.{◌≡◌, List, ◌∷◌, ◌++◌, true, cond, ℕ, ◌≤◌};
ghost use Rattle.json_grammar.specs.Tree.{Tree};
ghost use Rattle.document.specs.Date.{is_date};
ghost use Rattle.document.specs.Valid.{if_given};
ghost use Rattle.document.specs.Untable.{date_of, zone_of, meal_of, text_of};
ghost use Rattle.document.specs.Plain.{day_text, time_text, zone_text};
ghost use Rattle.write_bytes.specs.Puts.{Puts, Lays};
ghost use Rattle.write_details.specs.Prints.{DetailPrints};
ghost use Rattle.write_posology.specs.Heads.{date_field, reserve_field, meal_field, text_field, string_fields, front_fields, head_fields, Within, Writable};

use document::table::{Date, Head, Text};
use write_bytes::Output;
use write_details;
use write_numbers;
use write_strings;

fn put_day(out: &mut Output<'_>, year: u16, month: u8, day: u8)
    ensures { (k : List ℕ) → year ≤ 9999 → month ≤ 99 → day ≤ 99 → Lays out.old (day_text (record { year = year; month = month; day = day }) k) k out.new }
{
    write_numbers::put_two(out, u64::from(year / 100));
    write_numbers::put_two(out, u64::from(year % 100));
    out.put(b'-');
    write_numbers::put_two(out, u64::from(month));
    out.put(b'-');
    write_numbers::put_two(out, u64::from(day));
}

// A zone is written with its sign.
fn sign(west: bool) -> u8
    ensures { result ≡ cond west 45 43 }
{
    if west { b'-' } else { b'+' }
}

fn put_moment(out: &mut Output<'_>, second: u32, west: bool, zone: u16)
    ensures { (k : List ℕ) → second ≤ 86399 → zone ≤ 840 → Lays out.old (84 ∷ time_text second (zone_text (zone_of west zone) ++ k)) k out.new }
{
    out.put(b'T');
    write_numbers::put_time(out, u64::from(second));
    out.put(sign(west));
    write_numbers::put_clock(out, u64::from(zone));
}

// `name` is all in front of the date's first digit.
fn put_date(out: &mut Output<'_>, name: &[u8], d: Date)
    ensures { (k : List ℕ) → if_given is_date (date_of d) ≡ true → Lays out.old (date_field name.now (date_of d) k) k out.new }
{
    match d {
        Date::Absent => {}
        Date::Bare { year, month, day } => {
            out.put_all(name);
            put_day(out, year, month, day);
            out.put_all(b"\",");
        }
        Date::Moment {
            year,
            month,
            day,
            second,
            west,
            zone,
        } => {
            out.put_all(name);
            put_day(out, year, month, day);
            put_moment(out, second, west, zone);
            out.put_all(b"\",");
        }
    }
}

fn put_reserve(out: &mut Output<'_>, reserve: bool)
    ensures { (k : List ℕ) → Lays out.old (reserve_field reserve k) k out.new }
{
    if reserve {
        out.put_all(b"\"inRes\":true,");
    }
}

fn put_meal(out: &mut Output<'_>, meal: u8)
    ensures { (k : List ℕ) → Lays out.old (meal_field (meal_of meal) k) k out.new }
{
    if meal != 0 {
        write_details::put_integer(out, b",\"relMeal\":", u64::from(meal));
    }
}

// `name` is all in front of the string's quote.
fn put_text(out: &mut Output<'_>, name: &[u8], buffer: &[u8], t: Text)
    ensures { (k : List ℕ) → Within buffer.now t → Lays out.old (text_field name.now (text_of buffer.now t) k) k out.new }
{
    if t.len != 0 {
        out.put_all(name);
        let text = write_details::part(buffer, t.start as u64, t.len as u64);
        write_strings::put_string(out, text);
    }
}

fn put_strings(out: &mut Output<'_>, buffer: &[u8], h: Head)
    ensures { (k : List ℕ) → Writable buffer.now h → Lays out.old (string_fields buffer.now h k) k out.new }
{
    put_text(out, b",\"unit\":", buffer, h.unit);
    put_text(out, b",\"applInstr\":", buffer, h.instructions);
    put_text(out, b",\"roa\":", buffer, h.roa);
    put_text(out, b",\"moa\":", buffer, h.moa);
}

fn put_front(out: &mut Output<'_>, h: Head)
    ensures { (k : List ℕ) → if_given is_date (date_of h.from) ≡ true → if_given is_date (date_of h.to) ≡ true → Lays out.old (front_fields h k) k out.new }
{
    out.put(b'{');
    put_date(out, b"\"dtFrom\":\"", h.from);
    put_date(out, b"\"dtTo\":\"", h.to);
    put_reserve(out, h.reserve);
    out.put_all(b"\"po\":");
}

// The whole text from a place of the buffer on, as far as it reaches; the answer is the place behind it.
// The records of its detail begin at record i.
pub fn put_posology(
    out: &mut [u8],
    from: usize,
    h: Head,
    words: &[u64],
    i: usize,
    buffer: &[u8],
) -> usize
    ensures { (t : Tree) (k : List ℕ) → Writable buffer.now h → DetailPrints words.now buffer.now 3 i t → Puts out.old from (head_fields buffer.now h t k) k result out.new }
{
    let mut output = Output::new(out, from);
    put_front(&mut output, h);
    write_details::put_po(words, i, buffer, &mut output);
    put_meal(&mut output, h.meal);
    put_strings(&mut output, buffer, h);
    output.put(b'}');
    output.end()
}
