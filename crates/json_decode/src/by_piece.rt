// A string's bytes, as many at once as stand together in the text or are decoded together.
#![tactic(auto)]

ghost use Rattle.std.specs.Prelude.{◌≡◌, true, [], length};
ghost use Rattle.json_decode.specs.Characters.{plain_from, Run};

use crate::{Out, Spot};
use json_grammar::string::InString;
use json_scan::escape;

#[derive(Clone, Copy)]
pub enum Piece<'a> {
    Spelled(&'a [u8]), // a run of the text's own bytes
    Decoded(Out),
}

impl<'a> Piece<'a> {
    ghost use Rattle.json_decode.specs.Bytes.{bytes_of};

    pub fn as_slice(&self) -> &[u8]
        ensures { result.now ≡ bytes_of self.now }
    {
        match self {
            Piece::Spelled(bytes) => bytes,
            Piece::Decoded(out) => out.as_slice(),
        }
    }

    // How many they are: to be counted, they need not be laid out.
    #[inline(always)]
    pub fn len(&self) -> usize
        ensures { result ≡ length (bytes_of self.now) }
    {
        match self {
            Piece::Spelled(bytes) => bytes.len(),
            Piece::Decoded(out) => out.len(),
        }
    }
}

// What is left of a string from a spot on, with the end of the run that begins there, as far as it is looked for: a copy need not look for it again.
#[derive(Clone, Copy)]
pub struct Pieces<'a> {
    text: &'a [u8],
    spot: Spot,
    end: usize,
    ghost run: { Run text.now spot end },
}

impl<'a> Pieces<'a> {
    ghost use Rattle.std.specs.Prelude.{drop};
    ghost use Rattle.json_move.specs.Read.{decoded};
    ghost use Rattle.json_decode.specs.Characters.{left};
    ghost use Rattle.json_decode.specs.Bytes.{ahead};

    #[inline(always)]
    fn from_spot(text: &'a [u8], spot: Spot) -> Self
        ensures { ahead result ≡ left text.now spot }
    {
        Pieces {
            text,
            spot,
            end: crate::run_near(text, spot),
        }
    }

    // Those from a place on where a character or the closing quote may stand.
    pub fn plain_at(text: &'a [u8], at: usize) -> Self
        ensures { ahead result ≡ plain_from text.now at }
    {
        Pieces::from_spot(text, crate::spot_at(at))
    }

    // Those of the string whose quote stands at `quote`.
    pub fn of(text: &'a [u8], quote: usize) -> Self
        ensures { ahead result ≡ decoded (drop quote text.now) }
    {
        Pieces::plain_at(text, crate::behind(text, quote))
    }
}

// Whether the closing quote stands at `at`, as it does behind the first run of most strings.
#[tactic(auto, using(crate::proofs::Ahead::plain_ends))]
fn closes_at(text: &[u8], at: usize) -> bool
    ensures { result ≡ true → plain_from text.now at ≡ [] }
{
    at < text.len() && text[at] == b'"'
}

// The next end of a run that is longer than is looked for at once, as few are.
#[cold]
#[inline(never)]
fn run_on(text: &[u8], s: Spot) -> usize
    ensures { Run text.now s result }
{
    crate::run_near(text, s)
}

impl<'a> Iterator for Pieces<'a> {
    type Item = Piece<'a>;

    ghost use Rattle.std.specs.Iterator.{item_count};
    ghost use Rattle.json_decode.specs.Bytes.{ahead, YieldsPiece};

    ghost next_gives = { YieldsPiece };

    ghost remaining = { item_count ahead };

    #[inline(always)]
    fn next(&mut self) -> Option<Piece<'a>> {
        let text = self.text;
        let start = self.spot.at;
        if start < self.end {
            self.spot.at = self.end;
            return Some(Piece::Spelled(&text[start..self.end]));
        }
        if let InString::Plain = self.spot.state {
            if closes_at(text, start) {
                return None;
            }
            if let Some(escape) = escape::escape_at(text, start) {
                self.spot.at = start + escape.width();
                self.end = crate::run_near(text, self.spot);
                return Some(Piece::Decoded(crate::escaped(escape)));
            }
            let end = run_on(text, self.spot);
            if start < end {
                self.spot.at = end;
                self.end = end;
                return Some(Piece::Spelled(&text[start..end]));
            }
        }
        let next = crate::stepped_bytes(text, self.spot)?;
        self.spot = next.spot;
        self.end = next.spot.at;
        Some(Piece::Decoded(next.out))
    }
}
