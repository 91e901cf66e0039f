// Names of a walked text compared as their escapes are undone. No copy is made.
#![tactic(auto)]

ghost use Rattle.std.specs.Prelude.{◌≡◌, drop};
ghost use Rattle.json_move.specs.Read.{decoded, same};
ghost use Rattle.json_decode.specs.Characters.{plain_from};
ghost use Rattle.json_same.specs.Naming.{Paired, Begins};

use json_grammar::string::Lead;
use json_scan::string;

// What stands at a place where a character or the closing quote may stand: two strings mostly differ in plain characters.
#[derive(Clone, Copy)]
enum First {
    Ascii(u8), // a plain ASCII character
    End,
    Coded, // what is to be decoded
}

fn first_at(text: &[u8], at: usize) -> First
    ensures { Begins text.now at result }
{
    let Some(&b) = text.get(at) else {
        return First::End;
    };
    match string::lead_of(b) {
        Lead::Ascii => First::Ascii(b),
        Lead::Quote => First::End,
        _ => First::Coded,
    }
}

// So many plain ASCII characters stand at `p` and at `q` alike.
fn ascii_both(text: &[u8], p: usize, q: usize) -> usize
    ensures { Paired text.now p q result }
{
    let most = text.len().saturating_sub(p.max(q));
    for n in 0..most {
        let b = text[p + n];
        if b != text[q + n] || !string::is_ascii(b) {
            return n;
        }
    }
    most
}

// Whether the strings go on alike from `p` and from `q` on, where a character or the closing quote may stand.
fn rest_same(text: &[u8], p: usize, q: usize) -> bool
    ensures { result ≡ same (plain_from text.now p) (plain_from text.now q) }
{
    json_decode::plain_at(text, p).eq(json_decode::plain_at(text, q))
}

// Whether the strings whose quotes stand at `p` and at `q` are the same.
pub fn names_same(text: &[u8], p: usize, q: usize) -> bool
    ensures { result ≡ same (decoded (drop p text.now)) (decoded (drop q text.now)) }
{
    let at = json_decode::behind(text, p);
    let from = json_decode::behind(text, q);
    let n = ascii_both(text, at, from);
    let i = at + n;
    let j = from + n;
    match (first_at(text, i), first_at(text, j)) {
        (First::End, First::End) => true,
        (First::End, First::Ascii(_)) | (First::Ascii(_), First::End) => false,
        (First::Ascii(a), First::Ascii(b)) if a != b => false,
        _ => rest_same(text, i, j),
    }
}
