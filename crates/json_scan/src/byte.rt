// Bytes by their kinds.
#![tactic(auto, using(std::proofs::lemmas::Bool::Decides::nat_tests), unfolding(json_grammar::specs::Rows::look, json_grammar::specs::Byte::is_blank, json_grammar::specs::Byte::is_hex, json_grammar::specs::Byte::is_d, json_grammar::specs::Byte::is_to_7, json_grammar::specs::Byte::is_8_to_b, json_grammar::specs::Byte::is_c_to_f, json_grammar::specs::Byte::within, json_grammar::specs::Byte::digit))]

ghost use Rattle.std.specs.Prelude.{◌≡◌, ◌<◌};
ghost use Rattle.json_grammar.specs.Byte.{is_blank, is_hex, is_d, is_to_7, is_8_to_b, is_c_to_f, within as between, digit, blanked};
ghost use Rattle.json_grammar.specs.Tree.{Moves};

pub fn is_blank(b: u8) -> bool
    ensures { result ≡ is_blank b }
{
    // tried: as one pattern of four it is three comparisons in place of one test of bits, and the walk takes a quarter longer
    match b {
        b' ' | b'\t' => true,
        b'\n' | b'\r' => true,
        _ => false,
    }
}

// From lo on, and below hi.
pub fn within(lo: u8, hi: u8, b: u8) -> bool
    ensures { result ≡ between lo hi b }
{
    lo <= b && b < hi
}

pub fn is_hex(b: u8) -> bool
    ensures { result ≡ is_hex b }
{
    b.is_ascii_hexdigit()
}

pub fn is_d(b: u8) -> bool
    ensures { result ≡ is_d b }
{
    matches!(b, b'D' | b'd')
}

pub fn is_to_7(b: u8) -> bool
    ensures { result ≡ is_to_7 b }
{
    matches!(b, b'0'..=b'7')
}

pub fn is_8_to_b(b: u8) -> bool
    ensures { result ≡ is_8_to_b b }
{
    matches!(b, b'8' | b'9' | b'A' | b'B' | b'a' | b'b')
}

pub fn is_c_to_f(b: u8) -> bool
    ensures { result ≡ is_c_to_f b }
{
    matches!(b, b'C'..=b'F' | b'c'..=b'f')
}

pub fn wide(b: u8) -> u64
    ensures { result ≡ b }
{
    u64::from(b)
}

// What a hexadecimal digit counts.
pub fn digit_of(b: u8) -> u64
    ensures value { result ≡ digit b }
    ensures upper_bound { result < 16 }
{
    match b {
        b'0'..=b'9' => u64::from(b - b'0'),
        b'A'..=b'F' => u64::from(b - b'A' + 10),
        b'a'..=b'f' => u64::from(b - b'a' + 10),
        _ => 0,
    }
}

// The first place from `at` on whose byte is no blank.
pub fn blanks_end(text: &[u8], at: usize) -> usize
    ensures { Moves blanked text.now at result }
{
    for i in at..text.len() {
        if !is_blank(text[i]) {
            return i;
        }
    }
    at.max(text.len())
}
