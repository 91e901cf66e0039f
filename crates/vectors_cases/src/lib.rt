// A line of outside vectors, character by character: its first word, its first numbers, and the bytes that its last word has in hexadecimal; and
// what the programs print of an answer.
#![tactic(auto)]

use json_scan::byte;
use std::io;

// The first word's letters are packed into a number, the last one lowest. Of each word behind it the number is kept, if it is one of the first
// two, and its bytes until the next begins.
#[derive(Clone, Copy)]
pub struct Case {
    pub command: u64,
    pub word: u64,
    pub first: u64,
    pub second: u64,
    pub bytes: usize,
    pub half: bool,
    pub high: u64,
}

pub fn fresh() -> Case {
    Case {
        command: 0,
        word: 0,
        first: 0,
        second: 0,
        bytes: 0,
        half: false,
        high: 0,
    }
}

// A number that no line has where there is a minus sign.
fn ten_more(n: u64, b: u8) -> u64 {
    if b == b'-' {
        return 90;
    }
    n % 100000000000000000 * 10 + byte::digit_of(b) % 10
}

fn with_number(c: Case, b: u8) -> Case {
    let mut next = c;
    if c.word == 1 {
        next.first = ten_more(c.first, b);
    }
    if c.word == 2 {
        next.second = ten_more(c.second, b);
    }
    next
}

fn with_digit(c: Case, b: u8, text: &mut [u8]) -> Case {
    let mut next = c;
    if b == b'-' {
        return next;
    }
    if !c.half {
        next.half = true;
        next.high = byte::digit_of(b);
        return next;
    }
    let n = c.bytes;
    next.half = false;
    if n < text.len() {
        text[n] = (c.high % 16 * 16 + byte::digit_of(b) % 16) as u8;
        next.bytes = n + 1;
    }
    next
}

// One character more, which ends no line.
pub fn with(c: Case, b: u8, text: &mut [u8]) -> Case {
    let mut next = c;
    if b == b' ' {
        next.word = c.word % 8 + 1;
        next.bytes = 0;
        next.half = false;
        return next;
    }
    if c.word == 0 {
        next.command = c.command % 0x1000000000000 * 256 + byte::wide(b);
        return next;
    }
    with_digit(with_number(c, b), b, text)
}

pub fn say(rt: &impl Print, word: &[u8], n: u64) -> io::Result<()> {
    rt.write_all(word)?;
    rt.print(n)
}

// Bytes in hexadecimal; `-` for none.
pub fn say_hex(rt: &impl Print, bytes: &[u8]) -> io::Result<()> {
    if bytes.len() == 0 {
        return rt.write_all(b"-");
    }
    for byte in bytes {
        print!(rt; "{byte:02x}")?;
    }
    Ok(())
}

pub fn end_line(rt: &impl Print) -> io::Result<()> {
    rt.write_all(b"\n")
}

// So many bytes, or all where there are fewer.
pub fn first(bytes: &[u8], n: usize) -> &[u8] {
    if bytes.len() < n {
        return bytes;
    }
    &bytes[..n]
}
