// Moving about a text that was walked: members, elements, and the kinds of values. A value is skipped without a look for faults.
#![tactic(auto)]

ghost use Rattle.std.specs.Prelude.{◌≡◌, cond, ◌+◌, ◌-◌, ◌<◌, drop};
ghost use mathlib.Core.List.{tail};
ghost use Rattle.json_grammar.specs.Byte.{is_numeric};
ghost use Rattle.json_grammar.specs.Tree.{Moves};
ghost use Rattle.json_move.specs.Moving.{first_byte, kind_of, behind_string, opens as opens_here, closes as closes_here, behind_bracket, behind_number, behind_value, first_in, over_comma, next_after, behind_colon, value_of, at_end};
ghost use Rattle.json_move.specs.Count.{count as count_of, elements_in};

use json_scan::byte;

// What a value is.
#[derive(Clone, Copy, Debug, PartialEq, Eq)]
pub enum Kind {
    Object,
    Array,
    Text,
    Number,
    True,
    False,
    Null,
}

// The byte at a place, and 0 behind the text.
pub fn byte_at(text: &[u8], at: usize) -> u8
    ensures { result ≡ first_byte (drop at text.now) }
{
    text.get(at).copied().unwrap_or(0)
}

// What the value at a place is, by its first byte.
#[tactic(auto, using(std::proofs::lemmas::Bool::Decides::nat_tests), unfolding(crate::specs::Moving::kind_of, json_grammar::specs::Rows::look))]
pub fn kind_at(text: &[u8], at: usize) -> Kind
    ensures { result ≡ kind_of (drop at text.now) }
{
    match byte_at(text, at) {
        b'"' => Kind::Text,
        b'[' => Kind::Array,
        b'f' => Kind::False,
        b'n' => Kind::Null,
        b't' => Kind::True,
        b'{' => Kind::Object,
        _ => Kind::Number,
    }
}

// The place behind the byte at `at`.
#[tactic(auto, using(crate::proofs::Skips::moves_byte))]
fn behind_byte(text: &[u8], at: usize) -> usize
    ensures { Moves tail text.now at result }
{
    at + usize::from(at < text.len())
}

// The place behind so many bytes.
fn behind_bytes(text: &[u8], at: usize, n: usize) -> usize
    ensures { Moves (drop n) text.now at result }
{
    at + n.min(text.len().saturating_sub(at))
}

// The place behind a string's closing quote, from a place inside it.
pub fn behind_string(text: &[u8], at: usize) -> usize
    ensures { Moves behind_string text.now at result }
{
    let mut i = at;
    while i < text.len() {
        let b = text[i];
        i += 1;
        if b == b'"' {
            return i;
        }
        if b == b'\\' {
            i = behind_byte(text, i);
        }
    }
    i
}

#[tactic(auto, unfolding(crate::specs::Moving::opens))]
fn opens(b: u8) -> bool
    ensures { result ≡ opens_here b }
{
    matches!(b, b'[' | b'{')
}

#[tactic(auto, unfolding(crate::specs::Moving::closes))]
fn closes(b: u8) -> bool
    ensures { result ≡ closes_here b }
{
    matches!(b, b']' | b'}')
}

// The brackets that are open behind a byte, counted without a branch: in a list of all kinds in no order a processor would guess each wrong.
fn open_behind(b: u8, n: usize) -> usize
    requires { (0 < n) × (n < 0xFFFFFFFFFFFFFFFF) }
    ensures { result ≡ n + cond (opens_here b) 1 0 - cond (closes_here b) 1 0 }
{
    n + usize::from(opens(b)) - usize::from(closes(b))
}

// The place behind the bracket that closes a list or an object, from a place inside it.
fn behind_bracket(text: &[u8], at: usize) -> usize
    ensures { Moves (λ s. behind_bracket s 0) text.now at result }
{
    let mut i = at;
    let mut open: usize = 1;
    while i < text.len() {
        let b = text[i];
        i += 1;
        if b == b'"' {
            i = behind_string(text, i);
        } else if b' ' < b {
            open = open_behind(b, open);
            if open == 0 {
                return i;
            }
        }
    }
    i
}

#[tactic(auto, using(std::proofs::lemmas::Bool::Decides::nat_tests), unfolding(json_grammar::specs::Byte::is_numeric, json_grammar::specs::Rows::look))]
fn is_numeric(b: u8) -> bool
    ensures { result ≡ is_numeric b }
{
    b.is_ascii_digit() || matches!(b, b'+' | b'-' | b'.' | b'E' | b'e')
}

// The place behind the number at `at`.
pub fn behind_number(text: &[u8], at: usize) -> usize
    ensures { Moves behind_number text.now at result }
{
    for i in at..text.len() {
        if !is_numeric(text[i]) {
            return i;
        }
    }
    at.max(text.len())
}

// The place behind the value at `at`.
pub fn behind_value(text: &[u8], at: usize) -> usize
    ensures { Moves behind_value text.now at result }
{
    match kind_at(text, at) {
        Kind::Object | Kind::Array => behind_bracket(text, behind_byte(text, at)),
        Kind::Text => behind_string(text, behind_byte(text, at)),
        Kind::Number => behind_number(text, at),
        Kind::True | Kind::Null => behind_bytes(text, at, 4),
        Kind::False => behind_bytes(text, at, 5),
    }
}

// The first element or the first name's quote of the list or the object at `at`; or its closing bracket.
#[tactic(auto, using(json_grammar::proofs::Moves::then_moves), unfolding(crate::specs::Moving::first_in))]
pub fn first_in(text: &[u8], at: usize) -> usize
    ensures { Moves first_in text.now at result }
{
    byte::blanks_end(text, behind_byte(text, at))
}

fn over_comma(text: &[u8], at: usize) -> usize
    ensures { Moves over_comma text.now at result }
{
    if byte_at(text, at) == b',' {
        return byte::blanks_end(text, behind_byte(text, at));
    }
    at
}

// The element or the name's quote behind the value at `at`; or the closing bracket.
#[tactic(auto, using(json_grammar::proofs::Moves::then_moves), unfolding(crate::specs::Moving::next_after))]
pub fn next_after(text: &[u8], at: usize) -> usize
    ensures { Moves next_after text.now at result }
{
    over_comma(text, byte::blanks_end(text, behind_value(text, at)))
}

// The value behind the colon, from a place behind the member's name.
pub fn behind_colon(text: &[u8], at: usize) -> usize
    ensures { Moves behind_colon text.now at result }
{
    let colon = byte::blanks_end(text, at);
    byte::blanks_end(text, behind_byte(text, colon))
}

// The value of the member whose name's quote stands at `at`.
#[tactic(auto, using(json_grammar::proofs::Moves::then_moves), unfolding(crate::specs::Moving::value_of))]
pub fn value_of(text: &[u8], at: usize) -> usize
    ensures { Moves value_of text.now at result }
{
    behind_colon(text, behind_string(text, behind_byte(text, at)))
}

// Whether no element and no member begins at `at`.
#[tactic(auto, using(crate::proofs::Skips::ends_by, crate::proofs::Skips::ends_over))]
pub fn at_end(text: &[u8], at: usize) -> bool
    ensures { result ≡ at_end (drop at text.now) }
{
    match text.get(at) {
        Some(b) => closes(*b),
        None => true,
    }
}

// The number of elements of the list at `at`. Each takes at least a byte, so the length is turns enough.
pub fn count(text: &[u8], at: usize) -> usize
    ensures { result ≡ count_of (elements_in text.now (drop at text.now)) }
{
    let mut i = first_in(text, at);
    for n in 0..text.len() {
        if at_end(text, i) {
            return n;
        }
        i = next_after(text, i);
    }
    text.len()
}
