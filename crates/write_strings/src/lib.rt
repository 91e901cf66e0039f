// The strings of a plain text, put into an output between quotes.
#![tactic(auto)]

ghost use Rattle.std.specs.Prelude.{◌≡◌, List, ◌∷◌, ℕ, ◌<◌};
ghost use Rattle.document.specs.Spell.{hex_digit, control, escaped, spell};
ghost use Rattle.document.specs.Plain.{text_tree};
ghost use Rattle.write_bytes.specs.Puts.{Lays};

use write_bytes::Output;

fn hex(n: u8) -> u8
    requires { n < 16 }
    ensures { result ≡ hex_digit n }
{
    if n < 10 { b'0' + n } else { b'a' - 10 + n }
}

// \u00 and two lower-case digits
fn put_control(out: &mut Output<'_>, b: u8)
    ensures { (k : List ℕ) → Lays out.old (control b k) k out.new }
{
    out.put_all(b"\\u00");
    out.put_pair(hex(b / 16), hex(b % 16));
}

fn put_escape(out: &mut Output<'_>, letter: u8)
    ensures { (k : List ℕ) → Lays out.old (92 ∷ letter ∷ k) k out.new }
{
    out.put_pair(b'\\', letter);
}

// One byte of a string, with the escapes of document 01 and no others.
fn put_char(out: &mut Output<'_>, b: u8)
    ensures { (k : List ℕ) → Lays out.old (escaped b k) k out.new }
{
    match b {
        8 => put_escape(out, b'b'),
        9 => put_escape(out, b't'),
        10 => put_escape(out, b'n'),
        12 => put_escape(out, b'f'),
        13 => put_escape(out, b'r'),
        b'"' | b'\\' => put_escape(out, b),
        _ if b < 32 => put_control(out, b),
        _ => out.put(b),
    }
}

// A string in quotes. Bytes that stand for themselves are put many at once, and the others one by one.
pub fn put_string(out: &mut Output<'_>, bytes: &[u8])
    ensures { (k : List ℕ) → Lays out.old (spell (text_tree bytes.now) k) k out.new }
{
    out.put(b'"');
    let mut at = 0;
    while at < bytes.len() {
        let b = bytes[at];
        if write_bytes::is_plain(b) {
            let n = out.put_plain(&bytes[at..]);
            at += n;
        } else {
            put_char(out, b);
            at += 1;
        }
    }
    out.put(b'"');
}
