// The inside of a string, byte by byte, and where a string ends.
ghost use Rattle.std.specs.Prelude.{◌≡◌, true, ◌+◌, ◌≤◌, length, drop, IfSome};
ghost use Rattle.json_grammar.specs.Byte.{is_hex, is_tail, within as between};
ghost use Rattle.json_grammar.specs.String.{lead, letter, after, after_lead, after_letter, go_if, is_ascii};
ghost use Rattle.json_grammar.specs.Part.{string_stop, Stops, Skips};
ghost use Rattle.json_grammar.specs.declared.string.InString.TheVariants.{Plain, Tail1, Tail2};
ghost use Rattle.json_scan.specs.Chars.{Itself, Passes};
ghost use Rattle.json_scan.specs.Reached.{Opened};

use crate::{byte, escape};
use json_grammar::part::Torn;
use json_grammar::string::{CharStep, InString, Lead, Letter};

#[tactic(auto, using(std::proofs::lemmas::Bool::Decides::nat_tests), unfolding(json_grammar::specs::String::lead, json_grammar::specs::Rows::look))]
pub fn lead_of(b: u8) -> Lead
    ensures { result ≡ lead b }
{
    // most letters outside ASCII have two bytes
    if let 0xC2..=0xDF = b {
        return Lead::Two;
    }
    match b {
        0x00..=0x1F => Lead::Control,
        b' ' | b'!' | b'#'..=b'[' | b']'..=0x7F => Lead::Ascii,
        b'"' => Lead::Quote,
        b'\\' => Lead::Backslash,
        0xE0 => Lead::E0,
        0xE1..=0xEC | 0xEE | 0xEF => Lead::Three,
        0xED => Lead::Ed,
        0xF0 => Lead::F0,
        0xF1..=0xF3 => Lead::Four,
        0xF4 => Lead::F4,
        _ => Lead::Stray,
    }
}

#[tactic(auto, using(std::proofs::lemmas::Bool::Decides::nat_tests), unfolding(json_grammar::specs::String::letter, json_grammar::specs::Rows::look))]
pub fn letter_of(b: u8) -> Option<Letter>
    ensures { result ≡ letter b }
{
    match b {
        b'"' | b'/' | b'\\' => Some(Letter::Means(b)),
        b'b' => Some(Letter::Means(8)),
        b'f' => Some(Letter::Means(12)),
        b'n' => Some(Letter::Means(10)),
        b'r' => Some(Letter::Means(13)),
        b't' => Some(Letter::Means(9)),
        b'u' => Some(Letter::Unicode),
        _ => None,
    }
}

// To this state where the test holds.
fn go_if(test: bool, next: InString) -> CharStep
    ensures { result ≡ go_if test next }
{
    if test {
        CharStep::Goes(next)
    } else {
        CharStep::Refuses
    }
}

fn if_hex(b: u8, next: InString) -> CharStep
    ensures { result ≡ go_if (is_hex b) next }
{
    go_if(byte::is_hex(b), next)
}

fn if_within(lo: u8, hi: u8, b: u8, next: InString) -> CharStep
    ensures { result ≡ go_if (between lo hi b) next }
{
    go_if(byte::within(lo, hi, b), next)
}

fn after_lead(b: Lead) -> CharStep
    ensures { result ≡ after_lead b }
{
    match b {
        Lead::Control | Lead::Stray => CharStep::Refuses,
        Lead::Ascii => CharStep::Goes(InString::Plain),
        Lead::Quote => CharStep::Closes,
        Lead::Backslash => CharStep::Goes(InString::Escape),
        Lead::Two => CharStep::Goes(InString::Tail1),
        Lead::E0 => CharStep::Goes(InString::AfterE0),
        Lead::Three => CharStep::Goes(InString::Tail2),
        Lead::Ed => CharStep::Goes(InString::AfterEd),
        Lead::F0 => CharStep::Goes(InString::AfterF0),
        Lead::Four => CharStep::Goes(InString::Tail3),
        Lead::F4 => CharStep::Goes(InString::AfterF4),
    }
}

fn after_letter(l: Option<Letter>) -> CharStep
    ensures { result ≡ after_letter l }
{
    match l {
        Some(Letter::Means(_)) => CharStep::Goes(InString::Plain),
        Some(Letter::Unicode) => CharStep::Goes(InString::Unit),
        None => CharStep::Refuses,
    }
}

#[tactic(auto, unfolding(json_grammar::specs::String::after))]
fn after_unit(b: u8) -> CharStep
    ensures { result ≡ after InString.Unit b }
{
    if byte::is_d(b) {
        return CharStep::Goes(InString::UnitD);
    }
    if_hex(b, InString::Digit3)
}

#[tactic(auto, unfolding(json_grammar::specs::String::after))]
fn after_unit_d(b: u8) -> CharStep
    ensures { result ≡ after InString.UnitD b }
{
    if byte::is_to_7(b) {
        return CharStep::Goes(InString::Digit2);
    }
    go_if(byte::is_8_to_b(b), InString::High2)
}

// What a byte does in a state.
#[tactic(auto, unfolding(json_grammar::specs::String::after, json_grammar::specs::Byte::is_to_7, json_grammar::specs::Byte::is_tail))]
pub fn char_after(state: InString, b: u8) -> CharStep
    ensures { result ≡ after state b }
{
    match state {
        InString::Plain => after_lead(lead_of(b)),
        InString::Escape => after_letter(letter_of(b)),
        InString::Unit => after_unit(b),
        InString::UnitD => after_unit_d(b),
        InString::Digit3 => if_hex(b, InString::Digit2),
        InString::Digit2 => if_hex(b, InString::Digit1),
        InString::Digit1 => if_hex(b, InString::Plain),
        InString::High2 => if_hex(b, InString::High1),
        InString::High1 => if_hex(b, InString::Slash),
        InString::Slash => go_if(b == b'\\', InString::LetterU),
        InString::LetterU => go_if(b == b'u', InString::SecondD),
        InString::SecondD => go_if(byte::is_d(b), InString::SecondC),
        InString::SecondC => go_if(byte::is_c_to_f(b), InString::Digit2),
        InString::Tail3 => if_within(0x80, 0xC0, b, InString::Tail2),
        InString::Tail2 => if_within(0x80, 0xC0, b, InString::Tail1),
        InString::Tail1 => if_within(0x80, 0xC0, b, InString::Plain),
        InString::AfterE0 => if_within(0xA0, 0xC0, b, InString::Tail1),
        InString::AfterEd => if_within(0x80, 0xA0, b, InString::Tail1),
        InString::AfterF0 => if_within(0x90, 0xC0, b, InString::Tail2),
        InString::AfterF4 => if_within(0x80, 0x90, b, InString::Tail2),
    }
}

// Whether sixteen bytes are plain ASCII characters: looked at without a branch, so that a processor takes them at once.
fn sixteen_ascii(text: &[u8], at: usize) -> bool
    requires { at + 16 ≤ length text.now }
    ensures { result ≡ true → Skips (string_stop Plain) text.now at (at + 16) }
{
    let mut all = true;
    for k in 0..16 {
        all = all & is_ascii(text[at + k]);
    }
    all
}

// Sixteen bytes at a time, as long as they are plain ASCII characters.
fn sixteens_end(text: &[u8], at: usize) -> usize
    ensures { Skips (string_stop Plain) text.now at result }
{
    let mut i = at;
    while i < text.len() && 16 <= text.len() - i && sixteen_ascii(text, i) {
        i += 16;
    }
    i
}

// Byte by byte, and no further than `most`.
fn ascii_upto(text: &[u8], at: usize, most: usize) -> usize
    requires { most ≤ length text.now }
    ensures { Skips (string_stop Plain) text.now at result }
{
    for i in at..most {
        if !is_ascii(text[i]) {
            return i;
        }
    }
    at.max(most)
}

// The first place from `at` on whose byte is no plain ASCII character: most strings are nothing else, and short.
fn ascii_end(text: &[u8], at: usize) -> usize
    ensures { Skips (string_stop Plain) text.now at result }
{
    if text.len() <= at {
        return at;
    }
    if text.len() - at < 16 {
        return ascii_upto(text, at, text.len());
    }
    let i = ascii_upto(text, at, at + 16);
    if i < at + 16 {
        return i;
    }
    ascii_upto(text, sixteens_end(text, i), text.len())
}

#[tactic(auto, using(std::proofs::lemmas::Bool::Decides::nat_tests), unfolding(json_grammar::specs::String::is_ascii, json_grammar::specs::Rows::look))]
pub fn is_ascii(b: u8) -> bool
    ensures { result ≡ is_ascii b }
{
    (b' ' <= b) & (b < 0x80) & (b != b'"') & (b != b'\\')
}

#[tactic(auto, unfolding(json_grammar::specs::Byte::is_tail))]
fn is_tail(b: u8) -> bool
    ensures { result ≡ is_tail b }
{
    byte::within(0x80, 0xC0, b)
}

// Behind the first byte of a character of two.
fn two_bytes(text: &[u8], at: usize) -> Option<usize>
    requires { Opened text.now at 0x80 0xC0 Plain }
    ensures { IfSome result (Itself text.now at) }
{
    if 2 <= text.len() - at && is_tail(text[at + 1]) {
        Some(2)
    } else {
        None
    }
}

// Of three, the second from lo on, and below hi.
fn three_bytes(text: &[u8], at: usize, lo: u8, hi: u8) -> Option<usize>
    requires { Opened text.now at lo hi Tail1 }
    ensures { IfSome result (Itself text.now at) }
{
    if 3 <= text.len() - at && byte::within(lo, hi, text[at + 1]) && is_tail(text[at + 2]) {
        Some(3)
    } else {
        None
    }
}

fn four_bytes(text: &[u8], at: usize, lo: u8, hi: u8) -> Option<usize>
    requires { Opened text.now at lo hi Tail2 }
    ensures { IfSome result (Itself text.now at) }
{
    if 4 <= text.len() - at
        && byte::within(lo, hi, text[at + 1])
        && is_tail(text[at + 2])
        && is_tail(text[at + 3])
    {
        Some(4)
    } else {
        None
    }
}

// How many bytes the character outside ASCII at a place has; none where it does not stand there whole.
pub fn wide_char(text: &[u8], at: usize) -> Option<usize>
    ensures { IfSome result (Itself text.now at) }
{
    if text.len() <= at {
        return None;
    }
    match lead_of(text[at]) {
        Lead::Two => two_bytes(text, at),
        Lead::E0 => three_bytes(text, at, 0xA0, 0xC0),
        Lead::Three => three_bytes(text, at, 0x80, 0xC0),
        Lead::Ed => three_bytes(text, at, 0x80, 0xA0),
        Lead::F0 => four_bytes(text, at, 0x90, 0xC0),
        Lead::Four => four_bytes(text, at, 0x80, 0xC0),
        Lead::F4 => four_bytes(text, at, 0x80, 0x90),
        _ => None,
    }
}

fn ascii_skipped(text: &[u8], state: InString, at: usize) -> usize
    ensures { Skips (string_stop state) text.now at result }
{
    match state {
        InString::Plain => ascii_end(text, at),
        _ => at,
    }
}

// From a place on where a character or the closing quote may stand, byte by byte through the states.
fn states_end(text: &[u8], at: usize) -> Result<usize, Torn>
    ensures { Stops text.now at (string_stop Plain (drop at text.now)) result }
{
    let mut i = at;
    let mut state = InString::Plain;
    while i < text.len() {
        match char_after(state, text[i]) {
            CharStep::Goes(next) => {
                state = next;
                i = ascii_skipped(text, next, i + 1);
            }
            CharStep::Closes => return Ok(i + 1),
            CharStep::Refuses => return Err(Torn(i)),
        }
    }
    Err(Torn(text.len()))
}

// How many bytes the character at a place has where it is not plain ASCII; none where it does not stand there whole.
fn odd_char(text: &[u8], at: usize) -> Option<usize>
    ensures { IfSome result (Passes text.now at) }
{
    match wide_char(text, at) {
        Some(n) => Some(n),
        None => {
            let escape = escape::escape_at(text, at)?;
            Some(escape.width())
        }
    }
}

// The place behind the closing quote: `at` is behind the opening one.
pub fn string_end(text: &[u8], at: usize) -> Result<usize, Torn>
    ensures { Stops text.now at (string_stop Plain (drop at text.now)) result }
{
    let mut i = ascii_end(text, at);
    while i < text.len() {
        if text[i] == b'"' {
            return Ok(i + 1);
        }
        match odd_char(text, i) {
            Some(n) => i = ascii_end(text, i + n),
            None => return states_end(text, i),
        }
    }
    states_end(text, i)
}
