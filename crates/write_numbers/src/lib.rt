// The numbers and times of a plain text, put into an output.
#![tactic(auto)]

ghost use Rattle.std.specs.Prelude.{◌≡◌, not, List, ◌++◌, ℕ, ◌+◌, ◌%◌, ◌<◌, eqb};
ghost use Rattle.json_grammar.specs.Tree.{no_member};
ghost use Rattle.document.specs.Spell.{spell, more_members};
ghost use Rattle.document.specs.Plain.{fraction_digits, whole, amount, field_if, two, clock, time_text};
ghost use Rattle.write_bytes.specs.Puts.{Puts, Lays};
ghost use Rattle.write_numbers.specs.Tens.{tens};

use write_bytes::Output;

fn digit(n: u64) -> u8
    ensures { result ≡ 48 + n % 10 }
{
    (48 + n % 10) as u8
}

// The last digit but one, where there is one.
fn put_tens(out: &mut Output<'_>, n: u64)
    ensures { (k : List ℕ) → Lays out.old (tens n k) k out.new }
{
    if 9 < n {
        out.put(digit(n / 10));
    }
}

// The last six digits of a number, without leading zeros.
pub fn put_digits(out: &mut Output<'_>, number: u64)
    ensures { (k : List ℕ) → Lays out.old (spell (whole (number % 1000000)) k) k out.new }
{
    let n = number % 1000000;
    put_tens(out, n / 10000);
    put_tens(out, n / 1000);
    put_tens(out, n / 100);
    put_tens(out, n / 10);
    put_tens(out, n);
    out.put(digit(n));
}

// The same from a place of a buffer on; the answer is the place behind it.
pub fn put_whole(out: &mut [u8], from: usize, number: u64) -> usize
    ensures { (k : List ℕ) → Puts out.old from (spell (whole (number % 1000000)) k) k result out.new }
{
    let mut output = Output::new(out, from);
    put_digits(&mut output, number);
    output.end()
}

// The dosage of a cycle comes so often in it where nothing else is said.
const ONCE: u64 = 1;

// How often a cycle's dosage comes in it, left out where that is once; and the brace that ends the cycle.
pub fn put_per_cycle(out: &mut Output<'_>, per: u64)
    ensures { (k : List ℕ) → Lays out.old (more_members (field_if (not (eqb (per % 1000000) 1)) "tdpc" (whole (per % 1000000)) no_member) k) k out.new }
{
    let n = per % 1000000;
    if n != ONCE {
        out.put_all(b",\"tdpc\":");
        put_digits(out, n);
    }
    out.put(b'}');
}

// The digits behind the point, as long as something is left.
fn put_fraction(out: &mut Output<'_>, millionths: u64)
    requires { millionths < 1000000 }
    ensures { (k : List ℕ) → Lays out.old (fraction_digits 6 100000 millionths ++ k) k out.new }
{
    let mut left = millionths;
    let mut scale = 100000;
    while 0 < left {
        out.put(digit(left / scale));
        left %= scale;
        scale /= 10;
    }
}

// A decimal of so many millionths, without trailing zeros or bare dot: the last six digits in front of the point.
pub fn put_amount(out: &mut Output<'_>, millionths: u64)
    ensures { (k : List ℕ) → Lays out.old (spell (amount (millionths % 1000000000000)) k) k out.new }
{
    put_digits(out, millionths / 1000000);
    let left = millionths % 1000000;
    if 0 < left {
        out.put(b'.');
        put_fraction(out, left);
    }
}

// The last two digits of a number.
pub fn put_two(out: &mut Output<'_>, n: u64)
    ensures { (k : List ℕ) → Lays out.old (two (n % 100) k) k out.new }
{
    out.put(digit(n / 10));
    out.put(digit(n));
}

// hh:mm
pub fn put_clock(out: &mut Output<'_>, minutes: u64)
    ensures { (k : List ℕ) → Lays out.old (clock (minutes % 6000) k) k out.new }
{
    put_two(out, minutes / 60);
    out.put(b':');
    put_two(out, minutes % 60);
}

// hh:mm:ss
pub fn put_time(out: &mut Output<'_>, second: u64)
    ensures { (k : List ℕ) → Lays out.old (time_text (second % 360000) k) k out.new }
{
    put_clock(out, second / 60);
    out.put(b':');
    put_two(out, second % 60);
}
