// The bytes of a name, taken one after the other into what is told of them.
ghost use Rattle.std.specs.Prelude.{◌≡◌, ℕ, List, [], ◌∷◌, ◌++◌, true, drop, IfSome};
ghost use Rattle.json_grammar.specs.Tree.{Moves};
ghost use Rattle.json_move.specs.Moving.{behind_colon, value_of};
ghost use Rattle.json_move.specs.Read.{decoded};

use json_decode::Pieces;
use json_scan::string as spelled;

pub(crate) trait Takes: Copy {
    // what it was, some bytes, and what it is behind them
    ghost took: { Self → List ℕ → Self → Type 0 };

    fn with(self, b: u8) -> Self
        ensures { (start : Self) (bytes : List ℕ) → took start bytes self → took start (bytes ++ b ∷ []) result };

    // Whether it stays as it is, whatever bytes follow.
    fn is_full(self) -> bool
        ensures { result ≡ true → (start : Self) (bytes more : List ℕ) → took start bytes self → took start (bytes ++ more) self };

    ghost took_none: { (start : Self) → took start [] start };
}

pub(crate) fn all<T: Takes>(taken: T, bytes: &[u8]) -> T
    ensures { (start : T) (before : List ℕ) → T.took start before taken → T.took start (before ++ bytes.now) result }
{
    let mut t = taken;
    for b in bytes {
        if t.is_full() {
            return t;
        }
        t = t.with(*b);
    }
    t
}

// Of a name whose letters are plain ASCII, as most often, with the place behind its closing quote: they are gone over once.
pub(crate) fn plain<T: Takes>(start: T, text: &[u8], quote: usize) -> Option<(T, usize)>
    ensures { IfSome result (λ r. T.took start (decoded (drop quote text.now)) r.0 × ((v : ℕ) → Moves behind_colon text.now r.1 v → Moves value_of text.now quote v)) }
{
    if text.len() <= quote {
        return None;
    }
    let mut t = start;
    for i in quote + 1..text.len() {
        let b = text[i];
        if b == b'"' {
            return Some((t, i + 1));
        }
        if !spelled::is_ascii(b) {
            return None;
        }
        t = t.with(b);
    }
    None
}

// Of any name, as it is decoded, and no further than it takes.
pub(crate) fn decoded<T: Takes>(start: T, text: &[u8], quote: usize) -> T
    ensures { T.took start (decoded (drop quote text.now)) result }
{
    let mut t = start;
    for piece in Pieces::of(text, quote) {
        t = all(t, piece.as_slice());
        if t.is_full() {
            return t;
        }
    }
    t
}
