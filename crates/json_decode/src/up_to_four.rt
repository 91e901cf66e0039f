// Up to four bytes.
ghost use Rattle.std.specs.Prelude.{◌≡◌, [], ◌∷◌, length};

use std::marker::Model;

// The first n of the array; those behind them are zeros, so that the bytes give the fields back.
#[derive(Clone, Copy)]
pub struct Out {
    n: usize,
    bytes: [u8; 4],
}

impl Model for Out {
    ghost use Rattle.std.specs.Prelude.{◌≡◌, ◌≤◌, ℕ, List, take};

    ghost Value = { List ℕ };

    ghost use Rattle.json_decode.specs.Padded.{of_bytes};

    ghost view = { λ o. take o.n o.bytes };

    ghost inverse = { of_bytes };

    ghost invariant = { λ o. (o.n ≤ 4) × (of_bytes (take o.n o.bytes) ≡ o) };

    ghost inverse_ok = { λ o h. h.1 };
}

impl Out {
    pub fn none() -> Self
        ensures { result ≡ [] }
    {
        Out {
            n: 0,
            bytes: [0; 4],
        }
    }

    pub fn one(a: u8) -> Self
        ensures { result ≡ a ∷ [] }
    {
        Out {
            n: 1,
            bytes: [a, 0, 0, 0],
        }
    }

    pub fn two(a: u8, b: u8) -> Self
        ensures { result ≡ a ∷ b ∷ [] }
    {
        Out {
            n: 2,
            bytes: [a, b, 0, 0],
        }
    }

    pub fn three(a: u8, b: u8, c: u8) -> Self
        ensures { result ≡ a ∷ b ∷ c ∷ [] }
    {
        Out {
            n: 3,
            bytes: [a, b, c, 0],
        }
    }

    pub fn four(bytes: [u8; 4]) -> Self
        ensures { result ≡ bytes }
    {
        Out { n: 4, bytes }
    }

    pub fn len(&self) -> usize
        ensures { result ≡ length self.now }
    {
        self.n
    }

    pub fn as_slice(&self) -> &[u8]
        ensures { result.now ≡ self.now }
    {
        &self.bytes[..self.n]
    }
}
