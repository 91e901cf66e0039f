// How a number is written: its sign, how long it is, its fraction (document 01, "Numbers").
#![tactic(auto)]

ghost use Rattle.std.specs.Prelude.{◌≡◌, drop};
ghost use Rattle.document_figures.specs.Figures.{negative, exponent, carried, all_zero, up};

// "at most 18 characters"
const CHARACTERS: usize = 18;

pub fn is_negative(raw: &[u8]) -> bool
    ensures { result ≡ negative raw.now }
{
    raw.first() == Some(&b'-')
}

fn has_exponent(raw: &[u8]) -> bool
    ensures { result ≡ exponent raw.now }
{
    for b in raw {
        if *b == b'E' {
            return true;
        }
        if *b == b'e' {
            return true;
        }
    }
    false
}

#[tactic(auto, unfolding(crate::specs::Figures::carried))]
pub fn is_carried(raw: &[u8]) -> bool
    ensures { result ≡ carried raw.now }
{
    raw.len() <= CHARACTERS && !has_exponent(raw)
}

pub fn is_all_zero(raw: &[u8]) -> bool
    ensures { result ≡ all_zero raw.now }
{
    for b in raw {
        if *b != b'0' {
            return false;
        }
    }
    true
}

// Whether a fraction is one of whole millionths.
pub fn has_millionths(fraction: &[u8]) -> bool
    ensures { result ≡ all_zero (drop 6 fraction.now) }
{
    fraction.len() <= 6 || is_all_zero(&fraction[6..])
}

// One more where the fraction is a half or more.
pub fn rounding(fraction: &[u8]) -> u64
    ensures { result ≡ up fraction.now }
{
    match fraction.first() {
        Some(b) if b'5' <= *b => 1,
        _ => 0,
    }
}
