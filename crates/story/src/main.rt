// Standard input is posologies by name, a line each, an empty line, and a run of posologies: each named one's plain text is printed, or its refusal;
// the run is written and read back.
#![tactic(auto)]

mod named;
mod runs;

use document::table::{TEXT_ROOM, Table};
use std::io;
use std::num::wrapping_add_usize;

const BUFFER: usize = 65536;

fn say(rt: &impl Print, word: &[u8], n: u64) -> io::Result<()> {
    rt.write_all(word)?;
    rt.print(n)
}

// The bytes from `from` up to `to`, or none where they are not there.
fn part(bytes: &[u8], from: usize, to: usize) -> &[u8] {
    if to < from || bytes.len() < to {
        return &bytes[..0];
    }
    &bytes[from..to]
}

// Puts a table's plain text into the buffer from `from` on, and answers where it ends.
fn put(t: Table, purpose: u64, strings: &[u8], out: &mut [u8], from: usize) -> usize {
    if out.len() < from {
        return from;
    }
    match writer::write(t, strings, purpose, &mut out[from..]) {
        Ok(length) => wrapping_add_usize(from, length),
        Err(_) => from,
    }
}

fn main(rt: HostRuntime) -> io::Result<()> {
    let mut given = [0u8; BUFFER];
    let mut out = [0u8; BUFFER];
    let mut again = [0u8; BUFFER];
    let mut strings = [0u8; TEXT_ROOM];
    let n = input_bytes::read_full(&mut rt.reader(), &mut given)?;
    let at = named::lines(&rt, &given[..n], &mut strings, &mut out)?;
    runs::compare(&rt, part(&given, at, n), &mut strings, &mut out, &mut again)
}
