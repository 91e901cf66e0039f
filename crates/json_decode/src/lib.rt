// Strings of a walked text, decoded as they are gone through. No copy is made.
#![tactic(auto)]

ghost use Rattle.std.specs.Prelude.{◌≡◌, List, [], ◌∷◌, ℕ, drop, MatchOption};
ghost use Rattle.json_grammar.specs.Byte.{utf8};
ghost use Rattle.json_grammar.specs.String.{one_more, gather, point, meant, given as given_by};
ghost use Rattle.json_move.specs.Read.{decoded};
ghost use Rattle.json_decode.specs.Characters.{plain_from, left, meant_by, spot_at, behind_run, Steps, Run, GivesBytes};

mod by_byte;
mod by_piece;
mod up_to_four;

pub use by_byte::{Cursor, plain_at};
pub use by_piece::{Piece, Pieces};
use json_grammar::string::{CharStep, InString, Letter};
use json_scan::escape::Escape;
use json_scan::{byte, escape, string};
pub use up_to_four::Out;

// A place inside a string, with what may stand there, and the digits gathered of an escape.
#[derive(Clone, Copy)]
pub struct Spot {
    pub at: usize,
    pub state: InString,
    pub v: u64,
}

// Bytes that were decoded, and the spot behind them.
#[derive(Clone, Copy)]
pub struct NextBytes {
    pub out: Out,
    pub spot: Spot,
}

// Seven digits are kept of v, so that no product wraps.
#[tactic(auto, using(crate::proofs::Tables::seven_kept), unfolding(json_grammar::specs::String::one_more))]
fn one_more(v: u64, b: u8) -> u64
    ensures { result ≡ one_more v b }
{
    v % 0x10000000 * 16 + byte::digit_of(b)
}

// The digits gathered with this byte.
#[tactic(auto, using(crate::proofs::Tables::gathers_nothing), unfolding(json_grammar::specs::String::gather))]
fn gathered(state: InString, v: u64, b: u8) -> u64
    ensures { result ≡ gather state v b }
{
    match state {
        InString::Unit => byte::digit_of(b),
        InString::UnitD | InString::Digit3 | InString::Digit2 => one_more(v, b),
        InString::High2 | InString::High1 => one_more(v, b),
        InString::SecondD | InString::SecondC => one_more(v, b),
        InString::Slash | InString::LetterU => v,
        _ => 0,
    }
}

// The bytes of a code point.
#[tactic(auto, using(std::proofs::lemmas::Bool::Decides::nat_tests), unfolding(json_grammar::specs::Byte::utf8, json_grammar::specs::Rows::look))]
pub fn utf8_of(c: u64) -> Out
    ensures { result ≡ utf8 c }
{
    if c < 0x80 {
        return Out::one(c as u8);
    }
    let last = (0x80 + c % 64) as u8;
    if c < 0x800 {
        return Out::two((0xC0 + c / 64) as u8, last);
    }
    let third = (0x80 + c / 64 % 64) as u8;
    if c < 0x10000 {
        return Out::three((0xE0 + c / 4096) as u8, third, last);
    }
    Out::four([
        (0xF0 + c / 262144 % 8) as u8,
        (0x80 + c / 4096 % 64) as u8,
        third,
        last,
    ])
}

// What an escape stands for.
#[inline(always)]
fn escaped(e: Escape) -> Out
    ensures { result ≡ meant_by e }
{
    match e {
        Escape::Letter(m) => Out::one(m),
        Escape::Digits(v, _) => utf8_of(point_of(v)),
    }
}

// The code point of the digits gathered, four of one or eight of a pair.
#[tactic(auto, using(std::proofs::lemmas::Bool::Decides::nat_tests), unfolding(json_grammar::specs::String::point, json_grammar::specs::Rows::look))]
pub fn point_of(v: u64) -> u64
    ensures { result ≡ point v }
{
    if v < 0x10000 {
        return v;
    }
    0x10000 + v / 0x10000 % 0x400 * 0x400 + v % 0x400
}

#[tactic(auto, unfolding(json_grammar::specs::String::given))]
fn plain_gives(b: u8) -> Out
    ensures { result ≡ given_by InString.Plain 0 b }
{
    if b == b'\\' { Out::none() } else { Out::one(b) }
}

fn letter_gives(l: Option<Letter>) -> Out
    ensures { result ≡ meant l }
{
    match l {
        Some(Letter::Means(m)) => Out::one(m),
        Some(Letter::Unicode) | None => Out::none(),
    }
}

// What this byte adds to the decoded string.
#[tactic(auto, using(crate::proofs::Tables::gives_nothing), unfolding(json_grammar::specs::String::given))]
fn char_gives(state: InString, v: u64, b: u8) -> Out
    ensures { result ≡ given_by state v b }
{
    match state {
        InString::Plain => plain_gives(b),
        InString::Escape => letter_gives(string::letter_of(b)),
        InString::Digit1 => utf8_of(point_of(one_more(v, b))),
        InString::Tail3 | InString::Tail2 | InString::Tail1 => Out::one(b),
        InString::AfterE0 | InString::AfterEd => Out::one(b),
        InString::AfterF0 | InString::AfterF4 => Out::one(b),
        _ => Out::none(),
    }
}

// What the byte at a spot does, where the string does not end with it.
fn step(text: &[u8], s: Spot) -> Option<NextBytes>
    ensures { MatchOption result (left text.now s ≡ []) (Steps text.now s) }
{
    let b = *text.get(s.at)?;
    match string::char_after(s.state, b) {
        CharStep::Goes(state) => Some(NextBytes {
            out: char_gives(s.state, s.v, b),
            spot: Spot {
                at: s.at + 1,
                state,
                v: gathered(s.state, s.v, b),
            },
        }),
        CharStep::Closes | CharStep::Refuses => None,
    }
}

// As `plain_end`, but with letters outside ASCII it is looked for no further than `most` bytes on.
#[inline]
fn plain_within(text: &[u8], at: usize, most: usize) -> usize
    ensures { Run text.now (spot_at at) result }
{
    let mut i = at;
    while i < text.len() {
        let b = text[i];
        if string::is_ascii(b) {
            i += 1;
        } else if b < 0x80 {
            return i;
        } else {
            let Some(n) = string::wide_char(text, i) else {
                return i;
            };
            i += n;
            if most <= i - at {
                return i;
            }
        }
    }
    i
}

// The first place from `at` on where no character stands that is spelled as it is.
pub fn plain_end(text: &[u8], at: usize) -> usize
    ensures { Run text.now (spot_at at) result }
{
    plain_within(text, at, text.len())
}

// As `run_end`, but no further than `plain_within`.
#[tactic(auto, using(crate::proofs::Runs::run_none, crate::proofs::Runs::run_at))]
#[inline(always)]
fn run_within(text: &[u8], s: Spot, most: usize) -> usize
    ensures { Run text.now s result }
{
    match s.state {
        InString::Plain => plain_within(text, s.at, most),
        _ => s.at,
    }
}

// The place up to which the decoded bytes from a spot on are those of the text.
pub fn run_end(text: &[u8], s: Spot) -> usize
    ensures { Run text.now s result }
{
    run_within(text, s, text.len())
}

// How far a run is looked for at once. No string of a posology is longer (document 01), and whoever takes the first letters of a long name
// does not pay for all of it.
const RUN: usize = 2048;

// As `run_end`, but no further than is looked for at once.
#[inline(always)]
fn run_near(text: &[u8], s: Spot) -> usize
    ensures { Run text.now s result }
{
    run_within(text, s, RUN)
}

// The spot behind a run.
pub fn behind_run(s: Spot, at: usize) -> Spot
    ensures { result ≡ behind_run s at }
{
    Spot { at, ..s }
}

// The next decoded bytes of a string, byte by byte.
#[cold]
#[inline(never)]
fn stepped_bytes(text: &[u8], s: Spot) -> Option<NextBytes>
    ensures { MatchOption result (left text.now s ≡ []) (GivesBytes text.now s) }
{
    let mut spot = s;
    loop {
        let next = step(text, spot)?;
        if !next.out.as_slice().is_empty() {
            return Some(next);
        }
        spot = next.spot;
    }
}

// The next decoded bytes of a string, a whole escape's or else byte by byte; none where it ends.
pub fn next_bytes(text: &[u8], s: Spot) -> Option<NextBytes>
    ensures { MatchOption result (left text.now s ≡ []) (GivesBytes text.now s) }
{
    if let InString::Plain = s.state {
        if let Some(escape) = escape::escape_at(text, s.at) {
            return Some(NextBytes {
                out: escaped(escape),
                spot: spot_at(s.at + escape.width()),
            });
        }
    }
    stepped_bytes(text, s)
}

// The place behind the opening quote at `quote`.
#[tactic(auto, using(crate::proofs::Ahead::behind_quote))]
pub fn behind(text: &[u8], quote: usize) -> usize
    ensures { plain_from text.now result ≡ decoded (drop quote text.now) }
{
    quote + usize::from(quote < text.len())
}

// The spot where a character or the closing quote may stand.
#[tactic(auto, using(crate::proofs::Ahead::left_plain))]
pub fn spot_at(at: usize) -> Spot
    ensures { (text : List ℕ) → left text result ≡ plain_from text at }
{
    Spot {
        at,
        state: InString::Plain,
        v: 0,
    }
}
