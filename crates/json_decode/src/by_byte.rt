// A string's bytes one by one.
#![tactic(auto)]

ghost use Rattle.std.specs.Prelude.{◌≡◌, drop};
ghost use Rattle.std.specs.Iterator.{YieldsFirst, item_count};
ghost use Rattle.json_decode.specs.Characters.{plain_from};
ghost use Rattle.json_decode.specs.Bytes.{bytes_ahead};

use crate::{Out, Spot};

// Bytes that were decoded, of which so many are given out, and the spot behind them. It looks for no run: two names mostly differ in their first bytes.
#[derive(Clone, Copy)]
pub struct Cursor<'a> {
    text: &'a [u8],
    spot: Spot,
    out: Out,
    given: usize,
}

impl<'a> Iterator for Cursor<'a> {
    type Item = u8;

    ghost next_gives = { YieldsFirst bytes_ahead };

    ghost remaining = { item_count bytes_ahead };

    fn next(&mut self) -> Option<u8> {
        if let Some(&byte) = self.out.as_slice().get(self.given) {
            self.given += 1;
            return Some(byte);
        }
        let next = crate::next_bytes(self.text, self.spot)?;
        self.spot = next.spot;
        self.out = next.out;
        self.given = 1;
        Some(next.out.as_slice()[0])
    }
}

// The bytes from a place on where a character or the closing quote may stand.
pub fn plain_at(text: &[u8], at: usize) -> Cursor<'_>
    ensures { bytes_ahead result ≡ plain_from text.now at }
{
    Cursor {
        text,
        spot: crate::spot_at(at),
        out: Out::none(),
        given: 0,
    }
}
