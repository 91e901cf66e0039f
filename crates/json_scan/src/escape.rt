// An escape of a string in a straight line, behind one test of its length.
ghost use Rattle.std.specs.Prelude.{◌≡◌, true, [], ◌+◌, ◌<◌, ◌≤◌, length, IfSome};
ghost use Rattle.json_grammar.specs.declared.string.InString.TheVariants as S;
ghost use Rattle.json_scan.specs.Chars.{Escapes, width_of};
ghost use Rattle.json_scan.specs.Reached.{Reached, FourHex, four_digits};

use crate::{byte, string};
use json_grammar::string::Letter;

// What stands behind a backslash: a letter for a byte, or the digits of one unit or of a pair, and how many bytes the escape has.
#[derive(Clone, Copy)]
pub enum Escape {
    Letter(u8),
    Digits(u64, usize),
}

impl Escape {
    // How many bytes it has.
    pub fn width(self) -> usize
        ensures { result ≡ width_of self }
    {
        match self {
            Escape::Letter(_) => 2,
            Escape::Digits(_, n) => n,
        }
    }
}

fn four_hex(text: &[u8], at: usize) -> bool
    requires { at + 4 ≤ length text.now }
    ensures { result ≡ true → FourHex text.now at }
{
    byte::is_hex(text[at])
        & byte::is_hex(text[at + 1])
        & byte::is_hex(text[at + 2])
        & byte::is_hex(text[at + 3])
}

fn four_digits(text: &[u8], at: usize) -> u64
    requires { at + 4 ≤ length text.now }
    ensures value { result ≡ four_digits text.now at }
    ensures upper_bound { result < 0x10000 }
{
    byte::digit_of(text[at]) * 0x1000
        + byte::digit_of(text[at + 1]) * 0x100
        + byte::digit_of(text[at + 2]) * 0x10
        + byte::digit_of(text[at + 3])
}

// Behind the higher half of a pair the lower one, D and C to F, has to stand.
fn pair(text: &[u8], at: usize, high: u64) -> Option<Escape>
    requires reached { Reached text.now at 6 [] S.Slash high }
    requires high_bound { high < 0x10000 }
    ensures { IfSome result (Escapes text.now at) }
{
    if text.len() - at < 12 || text[at + 6] != b'\\' || text[at + 7] != b'u' {
        return None;
    }
    if !byte::is_d(text[at + 8]) || !byte::is_c_to_f(text[at + 9]) || !four_hex(text, at + 8) {
        return None;
    }
    Some(Escape::Digits(high * 0x10000 + four_digits(text, at + 8), 12))
}

// A unit, of D and 8 to B the higher half of a pair.
fn unit(text: &[u8], at: usize) -> Option<Escape>
    requires { Reached text.now at 2 [] S.Unit 0 }
    ensures { IfSome result (Escapes text.now at) }
{
    if text.len() - at < 6 || !four_hex(text, at + 2) {
        return None;
    }
    let v = four_digits(text, at + 2);
    if !byte::is_d(text[at + 2]) || byte::is_to_7(text[at + 3]) {
        return Some(Escape::Digits(v, 6));
    }
    if byte::is_8_to_b(text[at + 3]) {
        return pair(text, at, v);
    }
    None
}

// The escape whose backslash stands at a place; none where it is not whole.
pub fn escape_at(text: &[u8], at: usize) -> Option<Escape>
    ensures { IfSome result (Escapes text.now at) }
{
    if text.len() <= at || text[at] != b'\\' || text.len() - at < 2 {
        return None;
    }
    match string::letter_of(text[at + 1])? {
        Letter::Means(m) => Some(Escape::Letter(m)),
        Letter::Unicode => unit(text, at),
    }
}
