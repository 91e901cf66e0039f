// Runs the reader over outside vectors on standard input, a line each: `read` or `run` (also `reads` or `runs`), the use, the text room, and the
// bytes in hexadecimal. Answers `refused NUMBER PLACE`, `blank LENGTH`, or `ok`, for a run the end, then the number of records, the plain text and the
// strings in hexadecimal; and says so where the plain text does not read back to itself. A line `length` answers the length of the plain text of
// what is read, and its bound. A line `walk` or `walkrun` is of the walk alone: `2 PLACE`, `3 PLACE` or `taken`.
#![tactic(auto)]

use document::table::{Next, TEXT_ROOM, Table};
use json_walk::Fault;
use std::io;
use vectors_cases::Case;

const BUFFER: usize = 65536;

// More than any input here has.
const CHUNKS: usize = 1000;

// The first words of the lines that are not `read` or `reads`, packed.
const RUN: u64 = 0x72756E;

const RUNS: u64 = 0x72756E73;

const LENGTH: u64 = 0x6C656E677468;

const WALK: u64 = 0x77616C6B;

const WALK_RUN: u64 = 0x77616C6B72756E;

// Whether reading a plain text and writing what was read gives it again.
fn comes_back(plain: &[u8], purpose: u64) -> bool {
    let mut strings = [0u8; TEXT_ROOM];
    let mut again = [0u8; BUFFER];
    let r = posology::read(plain, purpose, &mut strings);
    match writer::write(r.table, &strings, purpose, &mut again) {
        Ok(length) => plain == vectors_cases::first(&again, length),
        Err(_) => false,
    }
}

fn say_plain(rt: &impl Print, t: Table, purpose: u64, strings: &[u8]) -> io::Result<()> {
    let mut out = [0u8; BUFFER];
    match writer::write(t, strings, purpose, &mut out) {
        Ok(length) => {
            let plain = vectors_cases::first(&out, length);
            rt.write_all(b" ")?;
            vectors_cases::say_hex(rt, plain)?;
            if !comes_back(plain, purpose) {
                rt.write_all(b" does not read back")?;
            }
            Ok(())
        }
        Err(why) => print!(rt; " unwritten {}", why.0.number()),
    }
}

fn say_taken(rt: &impl Print, t: Table, purpose: u64, strings: &[u8]) -> io::Result<()> {
    vectors_cases::say(rt, b" ", t.count as u64)?;
    say_plain(rt, t, purpose, strings)?;
    rt.write_all(b" ")?;
    vectors_cases::say_hex(rt, vectors_cases::first(strings, t.text))?;
    vectors_cases::end_line(rt)
}

fn answer_text(rt: &impl Print, text: &[u8], purpose: u64, strings: &mut [u8]) -> io::Result<()> {
    let r = posology::read(text, purpose, strings);
    match r.answer {
        Ok(()) => {
            rt.write_all(b"ok")?;
            say_taken(rt, r.table, purpose, strings)
        }
        Err(why) => println!(rt; "{why}"),
    }
}

fn answer_run(rt: &impl Print, run: &[u8], purpose: u64, strings: &mut [u8]) -> io::Result<()> {
    let r = posology::read_next(run, purpose, strings);
    match r.answer {
        Ok(Next::Taken { end }) => {
            vectors_cases::say(rt, b"ok ", end as u64)?;
            say_taken(rt, r.table, purpose, strings)
        }
        Ok(Next::Blank { length }) => println!(rt; "blank {length}"),
        Err(why) => println!(rt; "{why}"),
    }
}

fn say_length(rt: &impl Print, t: Table, purpose: u64, strings: &[u8]) -> io::Result<()> {
    let bound = writer::longest(t.count, t.text);
    match writer::length(t, strings, purpose) {
        Ok(length) => println!(rt; "ok {length} {bound}"),
        Err(why) => println!(rt; "{why}"),
    }
}

fn answer_length(rt: &impl Print, text: &[u8], purpose: u64, strings: &mut [u8]) -> io::Result<()> {
    let r = posology::read(text, purpose, strings);
    match r.answer {
        Ok(()) => say_length(rt, r.table, purpose, strings),
        Err(why) => println!(rt; "{why}"),
    }
}

fn say_walked(rt: &impl Print, end: Result<usize, Fault>) -> io::Result<()> {
    match end {
        Ok(_) => println!(rt; "taken"),
        Err(Fault::Broken(p)) => println!(rt; "2 {p}"),
        Err(Fault::Deep(p)) => println!(rt; "3 {p}"),
    }
}

fn answer(rt: &impl Print, c: Case, text: &[u8], strings: &mut [u8]) -> io::Result<()> {
    if c.command == WALK {
        return say_walked(rt, json_alone::one_object(text));
    }
    if c.command == WALK_RUN {
        return say_walked(rt, json_walk::first_object(text));
    }
    if c.command == LENGTH {
        return answer_length(rt, text, c.first, strings);
    }
    if c.command == RUN || c.command == RUNS {
        return answer_run(rt, text, c.first, strings);
    }
    answer_text(rt, text, c.first, strings)
}

fn answer_within(
    rt: &impl Print,
    room: usize,
    c: Case,
    text: &[u8],
    strings: &mut [u8],
) -> io::Result<()> {
    if room <= strings.len() {
        answer(rt, c, text, &mut strings[..room])?;
    }
    Ok(())
}

fn with(rt: &impl Print, c: Case, b: u8, text: &mut [u8], strings: &mut [u8]) -> io::Result<Case> {
    if b == b'\n' {
        answer_within(
            rt,
            c.second as usize,
            c,
            vectors_cases::first(text, c.bytes),
            strings,
        )?;
        return Ok(vectors_cases::fresh());
    }
    Ok(vectors_cases::with(c, b, text))
}

fn through(
    rt: &impl Print,
    chunk: &[u8],
    start: Case,
    text: &mut [u8],
    strings: &mut [u8],
) -> io::Result<Case> {
    let mut c = start;
    for b in chunk {
        c = with(rt, c, *b, text, strings)?;
    }
    Ok(c)
}

fn run(
    rt: &(impl Input + Print),
    chunk: &mut [u8],
    text: &mut [u8],
    strings: &mut [u8],
) -> io::Result<()> {
    let mut reader = rt.reader();
    let mut c = vectors_cases::fresh();
    for _ in 0..CHUNKS {
        let n = input_bytes::read_full(&mut reader, chunk)?;
        if n == 0 {
            return Ok(());
        }
        c = through(rt, &chunk[..n], c, text, strings)?;
    }
    Ok(())
}

fn main(rt: HostRuntime) -> io::Result<()> {
    let mut chunk = [0u8; BUFFER];
    let mut text = [0u8; BUFFER];
    let mut strings = [0u8; BUFFER];
    run(&rt, &mut chunk, &mut text, &mut strings)
}
