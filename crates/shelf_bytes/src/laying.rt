// A record laid behind the last one.
ghost use Rattle.std.specs.Prelude.{◌≡◌, List, ℕ};
ghost use Rattle.std.proofs.lemmas.List.Edits.{sets};
ghost use Rattle.write_bytes.specs.Puts.{Lays};
ghost use Rattle.shelf_bytes.specs.Layout.{low_bytes, record_bytes, Stores};

use crate::{HEAD, MARK};
use write_bytes::Output;

// "in two bytes, high byte first"
fn put_low_bytes(out: &mut Output<'_>, n: u64)
    ensures { (k : List ℕ) → Lays out.old (low_bytes n k) k out.new }
{
    out.put((n / 256 % 256) as u8);
    out.put((n % 256) as u8);
}

// "the mark bytes 0x50 0x6F, a number .., the plain text's length L in two more, then the plain text"
fn lay_record(area: &mut [u8], from: usize, number: u64, plain: &[u8])
    ensures { area.new ≡ sets area.old from (record_bytes number plain.now) }
{
    let mut out = Output::new(area, from);
    out.put_all(&MARK);
    put_low_bytes(&mut out, number);
    put_low_bytes(&mut out, plain.len() as u64);
    out.put_all(plain);
}

// Whether there is room behind the bytes that are used; then the record is laid there.
pub fn store(area: &mut [u8], used: usize, number: u64, plain: &[u8]) -> bool
    ensures { Stores number used plain.now area.old result area.new }
{
    let has_room = HEAD + plain.len() <= area.len().saturating_sub(used);
    if has_room {
        lay_record(area, used, number, plain);
    }
    has_room
}
