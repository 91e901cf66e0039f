// 128 posologies in a run: 64, and the same once more with members in another order and blanks between them.
// The first are written one behind the other and read back; then the others must come to the same bytes.
use crate::{part, put, say};
use document::table::Next;
use std::io;
use std::num::wrapping_add_usize;

const PLAN: u64 = 1;

const POSOLOGIES: usize = 64;

// How many were read and written, where the run's next text begins, and the bytes written.
#[derive(Clone, Copy)]
struct Going {
    count: usize,
    at: usize,
    length: usize,
}

// The next text of the run, written behind the others; the same state where there is none.
fn one_more(g: Going, run: &[u8], strings: &mut [u8], out: &mut [u8]) -> Going {
    let r = posology::read_next(part(run, g.at, run.len()), PLAN, strings);
    match r.answer {
        Ok(Next::Taken { end }) => Going {
            count: wrapping_add_usize(g.count, 1),
            at: wrapping_add_usize(g.at, end),
            length: put(r.table, PLAN, strings, out, g.length),
        },
        _ => g,
    }
}

// 64 texts of the run.
fn all(
    rt: &impl Print,
    word: &[u8],
    run: &[u8],
    strings: &mut [u8],
    out: &mut [u8],
) -> io::Result<Going> {
    let mut g = Going {
        count: 0,
        at: 0,
        length: 0,
    };
    for _ in 0..POSOLOGIES {
        g = one_more(g, run, strings, out);
    }
    say(rt, word, g.count as u64)?;
    say(rt, b" posologies, ", g.length as u64)?;
    rt.write_all(b" bytes\n")?;
    Ok(g)
}

// Whether the texts of a run come to the bytes that were written before.
fn once_more(
    rt: &impl Print,
    word: &[u8],
    run: &[u8],
    written: &[u8],
    strings: &mut [u8],
    out: &mut [u8],
) -> io::Result<()> {
    let g = all(rt, word, run, strings, out)?;
    if check::same(written, part(out, 0, g.length)) {
        return rt.write_all(b"the same bytes\n");
    }
    rt.write_all(b"not the same\n")
}

pub(crate) fn compare(
    rt: &impl Print,
    given: &[u8],
    strings: &mut [u8],
    out: &mut [u8],
    again: &mut [u8],
) -> io::Result<()> {
    let g = all(rt, b"written: ", given, strings, out)?;
    let written = part(out, 0, g.length);
    once_more(rt, b"read back: ", written, written, strings, again)?;
    once_more(
        rt,
        b"reordered, with blanks: ",
        part(given, g.at, given.len()),
        written,
        strings,
        again,
    )
}
