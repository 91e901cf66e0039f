// A number, byte by byte, and where it ends.
#![tactic(auto)]

ghost use Rattle.std.specs.Prelude.{◌≡◌, true, suc, ◌<◌, ◌≤◌, length, get_or, drop, Some, None};
ghost use Rattle.json_grammar.specs.Number.{onward, may_end, takes_digits};
ghost use Rattle.json_grammar.specs.Part.{number_stop, Skips, Stops, if_may_end};
ghost use Rattle.json_grammar.specs.declared.number.InNumber.{InNumber as Of};
ghost use Rattle.json_grammar.specs.declared.number.InNumber.TheVariants.{Start};

use json_grammar::number::InNumber;
use json_grammar::part::Torn;

// What a byte does in a part of a number.
#[tactic(auto, using(std::proofs::lemmas::Bool::Decides::nat_tests), unfolding(json_grammar::specs::Number::onward, json_grammar::specs::Rows::look))]
fn digit_after(part: InNumber, b: u8) -> Option<InNumber>
    ensures { result ≡ onward part b }
{
    match (part, b) {
        (InNumber::Start, b'-') => Some(InNumber::Minus),
        (InNumber::Start | InNumber::Minus, b'0') => Some(InNumber::Zero),
        (InNumber::Start | InNumber::Minus, b'1'..=b'9') => Some(InNumber::Whole),
        (InNumber::Whole, b'0'..=b'9') => Some(InNumber::Whole),
        (InNumber::Zero | InNumber::Whole, b'.') => Some(InNumber::Point),
        (InNumber::Point | InNumber::Fraction, b'0'..=b'9') => Some(InNumber::Fraction),
        (InNumber::Zero | InNumber::Whole | InNumber::Fraction, b'E' | b'e') => Some(
            InNumber::Mark,
        ),
        (InNumber::Mark, b'+' | b'-') => Some(InNumber::Sign),
        (InNumber::Mark | InNumber::Sign | InNumber::Power, b'0'..=b'9') => Some(InNumber::Power),
        _ => None,
    }
}

fn may_end(part: InNumber) -> bool
    ensures { result ≡ may_end part }
{
    matches!(
        part,
        InNumber::Zero | InNumber::Whole | InNumber::Fraction | InNumber::Power
    )
}

fn takes_digits(part: InNumber) -> bool
    ensures { result ≡ takes_digits part }
{
    matches!(part, InNumber::Whole | InNumber::Fraction | InNumber::Power)
}

// The first place from `at` on whose byte is no digit: most numbers are little else.
fn digits_end(text: &[u8], at: usize) -> usize
    ensures { (n : Of) → takes_digits n ≡ true → Skips (number_stop n) text.now at result }
{
    for i in at..text.len() {
        if !matches!(text[i], b'0'..=b'9') {
            return i;
        }
    }
    at.max(text.len())
}

fn digits_skipped(text: &[u8], part: InNumber, at: usize) -> usize
    ensures { Skips (number_stop part) text.now at result }
{
    if takes_digits(part) {
        digits_end(text, at)
    } else {
        at
    }
}

// Whether a digit from 1 to 9 stands at `at`, with which a whole number begins.
#[tactic(auto, using(std::proofs::lemmas::Bool::Decides::nat_tests), unfolding(json_grammar::specs::Number::onward, json_grammar::specs::Rows::look))]
fn begins_whole(text: &[u8], at: usize) -> bool
    ensures { result ≡ true → (at < length text.now) × (onward InNumber.Start (get_or text.now at 0) ≡ Some InNumber.Whole) }
{
    at < text.len() && matches!(text[at], b'1'..=b'9')
}

// Whether a comma, } or ] stands at `at`, as behind most numbers.
#[tactic(auto, using(std::proofs::lemmas::Bool::Decides::nat_tests), unfolding(json_grammar::specs::Number::onward, json_grammar::specs::Rows::look))]
fn ends_whole(text: &[u8], at: usize) -> bool
    ensures { result ≡ true → (at < length text.now) × (onward InNumber.Whole (get_or text.now at 0) ≡ None) }
{
    at < text.len() && matches!(text[at], b',' | b']' | b'}')
}

// The number is over at a place of the text.
fn over(text: &[u8], part: InNumber, at: usize) -> Result<usize, Torn>
    requires { at ≤ length text.now }
    ensures { Stops text.now at (if_may_end part (drop at text.now)) result }
{
    if may_end(part) { Ok(at) } else { Err(Torn(at)) }
}

// The place behind the number at `at`.
pub fn number_end(text: &[u8], at: usize) -> Result<usize, Torn>
    ensures { Stops text.now (suc at) (number_stop Start (drop at text.now)) result }
{
    let mut i = at;
    let mut part = InNumber::Start;
    // Most numbers are whole: their digits are skipped at once, and what stands behind them ends them.
    if begins_whole(text, at) {
        part = InNumber::Whole;
        i = digits_end(text, at + 1);
        if ends_whole(text, i) {
            return Ok(i);
        }
    }
    while i < text.len() {
        match digit_after(part, text[i]) {
            Some(next) => {
                part = next;
                i = digits_skipped(text, next, i + 1);
            }
            None => return over(text, part, i),
        }
    }
    over(text, part, text.len())
}
