// The walk over a text: whether it begins with an object, and where that ends (document 01, refusals 2 and 3).
#![tactic(auto)]

ghost use Rattle.std.specs.Prelude.{◌≡◌, [], ◌∷◌, false, suc, ◌<◌, ◌≤◌, length, drop, get_or};
ghost use Rattle.json_grammar.specs.Byte.{is_blank};
ghost use Rattle.json_grammar.specs.Part.{word_stop, Stops};
ghost use Rattle.json_grammar.specs.Walk.{walk, an_object, first_object};
ghost use Rattle.json_grammar.specs.Walk as W;
ghost use Rattle.json_walk.specs.declared.Fault.TheVariants.{Broken};
ghost use Rattle.json_walk.specs.Frames.{frame_of};
ghost use Rattle.json_walk.specs.Turn.{mode_of, open_in, steps, walk_from, plain_stop, behind_quoted, after_comma, closes_empty, Turned, Tells};

mod brackets;

use brackets::{Bracket, Brackets};
use json_grammar::part::Torn;
use json_scan::{byte, string};

// Why a text is refused, with the place (document 01, rows 2 and 3).
#[derive(Clone, Copy, Debug, PartialEq, Eq)]
pub enum Fault {
    Broken(usize), // it goes on as no JSON does
    Deep(usize), // one bracket too many is open
}

impl From<Torn> for Fault {
    ghost from_gives = { λ torn fault. fault ≡ Broken torn.0 };

    fn from(torn: Torn) -> Fault {
        Fault::Broken(torn.0)
    }
}

// What may stand next, blanks aside.
#[derive(Clone, Copy)]
enum Mode {
    Value,
    FirstElement,
    FirstName,
    Name,
    Colon,
    Behind,
}

// The walk at a place.
#[derive(Clone, Copy)]
struct Walk {
    at: usize,
    mode: Mode,
    brackets: Brackets,
}

// Where the walk comes to: it goes on, or the text's own brace is closed, and this is the place behind it.
#[derive(Clone, Copy)]
enum Step {
    Go(Walk),
    End(usize),
}

// One more bracket.
fn opened(text: &[u8], here: Walk, bracket: Bracket, mode: Mode) -> Result<Step, Fault>
    requires { here.at < length text.now }
    ensures { Turned text.now here.at (steps text.now here.at (W.opened (frame_of bracket) (mode_of mode) (open_in here.brackets))) result }
{
    let Some(brackets) = here.brackets.opened(bracket) else {
        return Err(Fault::Deep(here.at));
    };
    Ok(Step::Go(Walk {
        at: here.at + 1,
        mode,
        brackets,
    }))
}

// The innermost bracket is closed.
fn shut(text: &[u8], here: Walk) -> Result<Step, Fault>
    requires { here.at < length text.now }
    ensures { Turned text.now here.at (steps text.now here.at (W.shut (open_in here.brackets))) result }
{
    match here.brackets.depth {
        0 => Err(Fault::Broken(here.at)),
        1 => Ok(Step::End(here.at + 1)),
        _ => Ok(Step::Go(Walk {
            at: here.at + 1,
            mode: Mode::Behind,
            brackets: here.brackets.closed(),
        })),
    }
}

// The place behind the letters of `word`, which begin at `at`.
fn word_end(text: &[u8], at: usize, word: &[u8]) -> Result<usize, Torn>
    requires { at ≤ length text.now }
    ensures { Stops text.now at (word_stop word.now (drop at text.now)) result }
{
    for (k, letter) in word.iter().enumerate() {
        let i = at + k;
        if i == text.len() || text[i] != *letter {
            return Err(Torn(i));
        }
    }
    Ok(at + word.len())
}

// true, false, null or a number.
fn plain_end(text: &[u8], at: usize) -> Result<usize, Torn>
    requires { at < length text.now }
    ensures { Stops text.now (suc at) (plain_stop (drop at text.now)) result }
{
    match text[at] {
        b't' => word_end(text, at + 1, b"rue"),
        b'f' => word_end(text, at + 1, b"alse"),
        b'n' => word_end(text, at + 1, b"ull"),
        _ => json_number::number_end(text, at),
    }
}

// The first byte of a value that is no string.
fn begin(text: &[u8], here: Walk) -> Result<Step, Fault>
    requires { (here.at < length text.now) × (get_or text.now here.at 0 ≡ 34 → ⊥) }
    ensures { Turned text.now here.at (steps text.now here.at (W.begin (get_or text.now here.at 0) (open_in here.brackets))) result }
{
    match text[here.at] {
        b'{' => opened(text, here, Bracket::Curly, Mode::FirstName),
        b'[' => opened(text, here, Bracket::Square, Mode::FirstElement),
        _ => {
            let at = plain_end(text, here.at)?;
            Ok(Step::Go(Walk {
                at,
                mode: Mode::Behind,
                ..here
            }))
        }
    }
}

// What stands behind a string that begins in a mode, where one may.
fn behind_string(mode: Mode) -> Option<Mode>
    ensures { result ≡ behind_quoted mode }
{
    match mode {
        Mode::Value | Mode::FirstElement => Some(Mode::Behind),
        Mode::FirstName | Mode::Name => Some(Mode::Colon),
        Mode::Colon | Mode::Behind => None,
    }
}

// A quote: a string or a name begins.
fn string_at(text: &[u8], here: Walk) -> Result<Step, Fault>
    requires { (here.at < length text.now) × (get_or text.now here.at 0 ≡ 34) }
    ensures { Turned text.now here.at (walk_from text.now here) result }
{
    let Some(mode) = behind_string(here.mode) else {
        return Err(Fault::Broken(here.at));
    };
    let at = string::string_end(text, here.at + 1)?;
    Ok(Step::Go(Walk { at, mode, ..here }))
}

// Whether a byte closes the empty list or object that may end here.
fn closes_empty(mode: Mode, b: u8) -> bool
    ensures { result ≡ closes_empty mode b }
{
    matches!(
        (mode, b),
        (Mode::FirstElement, b']') | (Mode::FirstName, b'}')
    )
}

fn colon(text: &[u8], here: Walk) -> Result<Step, Fault>
    requires { (here.at < length text.now) × (is_blank (get_or text.now here.at 0) ≡ false) }
    ensures { Turned text.now here.at (walk W.colon (open_in here.brackets) (drop here.at text.now)) result }
{
    if text[here.at] != b':' {
        return Err(Fault::Broken(here.at));
    }
    Ok(Step::Go(Walk {
        at: here.at + 1,
        mode: Mode::Value,
        ..here
    }))
}

// What a comma leads to, by the innermost bracket.
fn after_comma(innermost: Bracket) -> Mode
    ensures { result ≡ after_comma innermost }
{
    match innermost {
        Bracket::Square => Mode::Value,
        Bracket::Curly => Mode::Name,
    }
}

// Behind a value: a comma, or the bracket that closes the innermost.
fn behind(text: &[u8], here: Walk) -> Result<Step, Fault>
    requires { (here.at < length text.now) × (is_blank (get_or text.now here.at 0) ≡ false) }
    ensures { Turned text.now here.at (walk W.behind (open_in here.brackets) (drop here.at text.now)) result }
{
    let Some(innermost) = here.brackets.innermost() else {
        return Err(Fault::Broken(here.at));
    };
    let b = text[here.at];
    if b == b',' {
        return Ok(Step::Go(Walk {
            at: here.at + 1,
            mode: after_comma(innermost),
            ..here
        }));
    }
    if b == innermost.closer() {
        return shut(text, here);
    }
    Err(Fault::Broken(here.at))
}

// What stands at a place, which is no blank. Strings go first: they are the most frequent.
fn turn_at(text: &[u8], here: Walk) -> Result<Step, Fault>
    requires { (here.at < length text.now) × (is_blank (get_or text.now here.at 0) ≡ false) }
    ensures { Turned text.now here.at (walk_from text.now here) result }
{
    let b = text[here.at];
    if b == b'"' {
        return string_at(text, here);
    }
    if closes_empty(here.mode, b) {
        return shut(text, here);
    }
    match here.mode {
        Mode::Value | Mode::FirstElement => begin(text, here),
        Mode::Colon => colon(text, here),
        Mode::Behind => behind(text, here),
        Mode::FirstName | Mode::Name => Err(Fault::Broken(here.at)),
    }
}

// The walk from behind the object's own brace on.
fn inside_end(text: &[u8], start: usize) -> Result<usize, Fault>
    requires { start ≤ length text.now }
    ensures { Tells text.now (walk W.first_name (an_object ∷ []) (drop start text.now)) result }
{
    let mut here = Walk {
        at: start,
        mode: Mode::FirstName,
        brackets: Brackets::one(),
    };
    while here.at < text.len() {
        here.at = byte::blanks_end(text, here.at);
        if text.len() <= here.at {
            break;
        }
        match turn_at(text, here)? {
            Step::Go(next) => here = next,
            Step::End(e) => return Ok(e),
        }
    }
    Err(Fault::Broken(text.len()))
}

// The first object of some bytes; what follows it is not looked at.
pub fn first_object(text: &[u8]) -> Result<usize, Fault>
    ensures { Tells text.now (first_object text.now) result }
{
    let start = byte::blanks_end(text, 0);
    if start < text.len() && text[start] == b'{' {
        inside_end(text, start + 1)
    } else {
        Err(Fault::Broken(start))
    }
}
