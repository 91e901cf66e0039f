// A number in eight bytes, the least significant first.
#![tactic(auto)]

ghost use Rattle.std.specs.Prelude.{◌≡◌, [], ℕ, ◌+◌, ◌*◌, ◌<◌, ◌≤◌, length, get_or, drop};
ghost use Rattle.std.proofs.lemmas.List.Edits.{sets};
ghost use Rattle.c_numbers.specs.Eights.{bytes_of, all_bytes, number_in};

fn put(bytes: &mut [u8], at: usize, x: u64)
    requires { at + 8 ≤ length bytes.old }
    ensures { bytes.new ≡ sets bytes.old at (bytes_of 8 x []) }
{
    bytes[at..at + 8].copy_from_slice(&x.to_le_bytes());
}

// Lays numbers one behind the other, from a place on; those that do not fit are not laid.
pub fn lay_numbers(numbers: &[u64], bytes: &mut [u8], from: usize)
    ensures { from + length numbers.now * 8 ≤ length bytes.old → bytes.new ≡ sets bytes.old from (all_bytes numbers.now) }
{
    if bytes.len() < from || (bytes.len() - from) / 8 < numbers.len() {
        return;
    }
    for (i, n) in numbers.iter().enumerate() {
        put(bytes, from + i * 8, *n);
    }
}

// In a straight line, so that a processor loads the eight bytes at once.
fn eight_at(bytes: &[u8], at: usize) -> u64
    requires { at + 8 ≤ length bytes.now }
    ensures { result ≡ number_in 8 (drop at bytes.now) }
{
    u64::from_le_bytes([
        bytes[at],
        bytes[at + 1],
        bytes[at + 2],
        bytes[at + 3],
        bytes[at + 4],
        bytes[at + 5],
        bytes[at + 6],
        bytes[at + 7],
    ])
}

fn byte_at(bytes: &[u8], at: usize) -> u8
    ensures { result ≡ get_or bytes.now at 0 }
{
    bytes.get(at).copied().unwrap_or(0)
}

// The number at a place; 0 behind the end.
pub fn number_at(bytes: &[u8], at: usize) -> u64
    ensures { result ≡ number_in 8 (drop at bytes.now) }
{
    if bytes.len() <= at {
        return 0;
    }
    if 8 <= bytes.len() - at {
        return eight_at(bytes, at);
    }
    let rest = &bytes[at..];
    u64::from_le_bytes([
        byte_at(rest, 0),
        byte_at(rest, 1),
        byte_at(rest, 2),
        byte_at(rest, 3),
        byte_at(rest, 4),
        byte_at(rest, 5),
        byte_at(rest, 6),
        byte_at(rest, 7),
    ])
}

// As many numbers as there is room for, from a place on, where the bytes have them all; else none is taken.
pub fn take_numbers(bytes: &[u8], from: usize, numbers: &mut [u64])
    ensures { from + length numbers.old * 8 ≤ length bytes.now → (i : ℕ) → i < length numbers.old → get_or numbers.new i 0 ≡ number_in 8 (drop (from + i * 8) bytes.now) }
{
    if bytes.len() < from || (bytes.len() - from) / 8 < numbers.len() {
        return;
    }
    for (i, n) in numbers.iter_mut().enumerate() {
        *n = eight_at(bytes, from + i * 8);
    }
}
