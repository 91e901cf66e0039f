// Posologies by name, a line each: the use's digit, a name, and the text. Prints each one's plain text, or its refusal.
ghost use Rattle.std.specs.Prelude.{◌≤◌, length};

use crate::{part, put};
use std::io;

fn answer(
    rt: &impl Print,
    text: &[u8],
    purpose: u64,
    strings: &mut [u8],
    out: &mut [u8],
) -> io::Result<()> {
    let r = posology::read(text, purpose, strings);
    match r.answer {
        Ok(()) => {
            let end = put(r.table, purpose, strings, out, 0);
            rt.write_all(part(out, 0, end))
        }
        Err(why) => print!(rt; "{why}"),
    }
}

// Where a byte stands first from `at` on, or the length.
fn until(bytes: &[u8], at: usize, byte: u8) -> usize
    requires { at ≤ length bytes.now }
    ensures { (at ≤ result) × (result ≤ length bytes.now) }
{
    let mut i = at;
    while i < bytes.len() {
        if bytes[i] == byte {
            return i;
        }
        i += 1;
    }
    i
}

fn told(rt: &impl Print, line: &[u8], strings: &mut [u8], out: &mut [u8]) -> io::Result<()> {
    if line.len() < 2 {
        return Ok(());
    }
    let end = until(line, 2, b' ');
    let from = end + 1;
    rt.write_all(part(line, 2, from))?;
    answer(
        rt,
        part(line, from, line.len()),
        (line[0] % 16) as u64,
        strings,
        out,
    )?;
    rt.write_all(b"\n")
}

// Tells the lines before the first empty one, and answers where the rest begins.
pub(crate) fn lines(
    rt: &impl Print,
    given: &[u8],
    strings: &mut [u8],
    out: &mut [u8],
) -> io::Result<usize> {
    let mut from = 0;
    while from < given.len() {
        let end = until(given, from, b'\n');
        if end == from {
            return Ok(end + 1);
        }
        told(rt, part(given, from, end), strings, out)?;
        from = end + 1;
    }
    Ok(from)
}
