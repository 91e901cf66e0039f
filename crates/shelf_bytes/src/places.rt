// What stands at a place of an area: a number in two bytes, a record's head, zeros to the end.
ghost use Rattle.std.specs.Prelude.{◌≡◌, get_or, drop};
ghost use Rattle.shelf_list.specs.Shelf.{is_zeros, number_at};
ghost use Rattle.shelf_bytes.specs.Layout.{head_size};

use crate::{HEAD, MARK};

// The byte at a place, 0 behind the last.
fn byte_at(area: &[u8], at: usize) -> u8
    ensures { result ≡ get_or area.now at 0 }
{
    area.get(at).copied().unwrap_or(0)
}

// "in two bytes, high byte first"
pub fn number_at(area: &[u8], at: usize) -> u16
    ensures { result ≡ number_at area.now at }
{
    u16::from_be_bytes([byte_at(area, at), byte_at(area, at.saturating_add(1))])
}

// The bytes of the record at a place, as its head says, if one begins there.
pub fn head_at(area: &[u8], at: usize) -> Option<usize>
    ensures { result ≡ head_size area.now at }
{
    let record = area.get(at..)?;
    let size = HEAD + usize::from(number_at(record, 4));
    if record.len() < size || !record.starts_with(&MARK) || number_at(record, 2) == 0 {
        return None;
    }
    Some(size)
}

// Whether only zeros stand from a place on. A loop: a step of two among them has to be refused for the bytes it leaves out, and
// behind another iterator the proof of `all` would be refused with any step.
pub fn zeros_from(area: &[u8], from: usize) -> bool
    ensures { result ≡ is_zeros (drop from area.now) }
{
    let mut at = from;
    while at < area.len() {
        if area[at] != 0 {
            return false;
        }
        at += 1;
    }
    true
}
