// Runs the shelf over outside vectors on standard input, a line each (document 02, Wish 2): `area LENGTH` or `bytes HEX` begins a shelf; then
// `put NUMBER USE HEX`, `fetch NUMBER ROOM`, `remove NUMBER`, `at POSITION`, and `show`, which prints the area without its closing zeros.
#![tactic(auto)]

use document::table::Table;
use std::io;
use vectors_cases::Case;

const BUFFER: usize = 65536;

// More than any input here has.
const CHUNKS: usize = 1000;

const ROOM: usize = 131072;

// The first words of the lines, packed.
const AREA: u64 = 0x61726561;

const BYTES: u64 = 0x6279746573;

const PUT: u64 = 0x707574;

const FETCH: u64 = 0x6665746368;

const REMOVE: u64 = 0x72656D6F7665;

const AT: u64 = 0x6174;

// A line so far, and the length of the area that the shelf is in.
#[derive(Clone, Copy)]
struct State {
    line: Case,
    length: usize,
}

fn ok(rt: &impl Print) -> io::Result<()> {
    rt.write_all(b"ok\n")
}

// Fills the area with the bytes and zeros behind them.
fn lay(area: &mut [u8], bytes: &[u8]) {
    for (i, b) in area.iter_mut().enumerate() {
        *b = if i < bytes.len() { bytes[i] } else { 0 };
    }
}

fn answer_put(
    rt: &impl Print,
    area: &mut [u8],
    number: u64,
    purpose: u64,
    text: &[u8],
) -> io::Result<()> {
    match shelf::put(area, number, text, purpose) {
        Ok(_) => ok(rt),
        Err(why) => println!(rt; "{why}"),
    }
}

fn say_plain(rt: &impl Print, t: Table, strings: &[u8]) -> io::Result<()> {
    let mut out = [0u8; BUFFER];
    match writer::write(t, strings, 3, &mut out) {
        Ok(length) => vectors_cases::say_hex(rt, vectors_cases::first(&out, length)),
        Err(why) => print!(rt; "unwritten {}", why.0.number()),
    }
}

fn answer_fetch(rt: &impl Print, area: &[u8], number: u64, strings: &mut [u8]) -> io::Result<()> {
    let r = shelf::fetch(area, number, strings);
    let t = r.table;
    match r.answer {
        Ok(()) => {
            vectors_cases::say(rt, b"ok ", t.count as u64)?;
            rt.write_all(b" ")?;
            say_plain(rt, t, strings)?;
            rt.write_all(b" ")?;
            vectors_cases::say_hex(rt, vectors_cases::first(strings, t.text))?;
            vectors_cases::end_line(rt)
        }
        Err(why) => println!(rt; "{why}"),
    }
}

fn fetch_within(
    rt: &impl Print,
    room: usize,
    area: &[u8],
    number: u64,
    strings: &mut [u8],
) -> io::Result<()> {
    if room <= strings.len() {
        answer_fetch(rt, area, number, &mut strings[..room])?;
    }
    Ok(())
}

fn answer_remove(rt: &impl Print, area: &mut [u8], number: u64) -> io::Result<()> {
    match shelf::remove(area, number) {
        Ok(()) => ok(rt),
        Err(why) => println!(rt; "{why}"),
    }
}

fn answer_at(rt: &impl Print, area: &[u8], position: u64) -> io::Result<()> {
    match shelf::at(area, position) {
        Ok(standing) => println!(rt; "ok {standing}"),
        Err(why) => println!(rt; "{why}"),
    }
}

// How many bytes there are up to the last one that is not zero.
fn filled(area: &[u8]) -> usize {
    let mut n = area.len();
    while 0 < n {
        if area[n - 1] != 0 {
            return n;
        }
        n -= 1;
    }
    0
}

fn answer_call(
    rt: &impl Print,
    c: Case,
    area: &mut [u8],
    text: &[u8],
    strings: &mut [u8],
) -> io::Result<()> {
    if c.command == PUT {
        return answer_put(rt, area, c.first, c.second, text);
    }
    if c.command == FETCH {
        return fetch_within(rt, c.second as usize, area, c.first, strings);
    }
    if c.command == REMOVE {
        return answer_remove(rt, area, c.first);
    }
    if c.command == AT {
        return answer_at(rt, area, c.first);
    }
    vectors_cases::say_hex(rt, vectors_cases::first(area, filled(area)))?;
    vectors_cases::end_line(rt)
}

fn call_within(
    rt: &impl Print,
    length: usize,
    c: Case,
    area: &mut [u8],
    text: &[u8],
    strings: &mut [u8],
) -> io::Result<()> {
    if length <= area.len() {
        answer_call(rt, c, &mut area[..length], text, strings)?;
    }
    Ok(())
}

// The area's length after the line.
fn answer(
    rt: &impl Print,
    c: Case,
    length: usize,
    area: &mut [u8],
    text: &[u8],
    strings: &mut [u8],
) -> io::Result<usize> {
    if c.command == AREA {
        lay(area, vectors_cases::first(text, 0));
        ok(rt)?;
        return Ok((c.first % 131073) as usize);
    }
    if c.command == BYTES {
        lay(area, vectors_cases::first(text, c.bytes));
        ok(rt)?;
        return Ok(c.bytes);
    }
    call_within(
        rt,
        length,
        c,
        area,
        vectors_cases::first(text, c.bytes),
        strings,
    )?;
    Ok(length)
}

fn with(
    rt: &impl Print,
    s: State,
    b: u8,
    area: &mut [u8],
    text: &mut [u8],
    strings: &mut [u8],
) -> io::Result<State> {
    let c = s.line;
    if b == b'\n' {
        return Ok(State {
            line: vectors_cases::fresh(),
            length: answer(rt, c, s.length, area, text, strings)?,
        });
    }
    Ok(State {
        line: vectors_cases::with(c, b, text),
        length: s.length,
    })
}

fn through(
    rt: &impl Print,
    chunk: &[u8],
    start: State,
    area: &mut [u8],
    text: &mut [u8],
    strings: &mut [u8],
) -> io::Result<State> {
    let mut s = start;
    for b in chunk {
        s = with(rt, s, *b, area, text, strings)?;
    }
    Ok(s)
}

fn run(
    rt: &(impl Input + Print),
    chunk: &mut [u8],
    area: &mut [u8],
    text: &mut [u8],
    strings: &mut [u8],
) -> io::Result<()> {
    let mut reader = rt.reader();
    let mut s = State {
        line: vectors_cases::fresh(),
        length: 0,
    };
    for _ in 0..CHUNKS {
        let n = input_bytes::read_full(&mut reader, chunk)?;
        if n == 0 {
            return Ok(());
        }
        s = through(rt, &chunk[..n], s, area, text, strings)?;
    }
    Ok(())
}

fn main(rt: HostRuntime) -> io::Result<()> {
    let mut chunk = [0u8; BUFFER];
    let mut area = [0u8; ROOM];
    let mut text = [0u8; ROOM];
    let mut strings = [0u8; BUFFER];
    run(&rt, &mut chunk, &mut area, &mut text, &mut strings)
}
