// Numbers by document 01: integers, rounded, and decimals in millionths, with refusals 8 and 9.
#![tactic(auto)]

ghost use Rattle.std.specs.Prelude.{◌≡◌, ◌≤◌, ◌<◌, ◌^◌, length, drop};
ghost use Rattle.json_move.specs.Read.{written};
ghost use Rattle.document_numbers.specs.Number.{figure as figure_of, counted as counted_in, behind_point, padded as padded_in, among, integer_in, amount, decimal_from};
ghost use Rattle.document_numbers.specs.Point.{Parts};

use json_scan::byte;

// An integer, and whether its fraction was zero.
#[derive(Clone, Copy, Debug, PartialEq, Eq)]
pub struct Whole {
    pub value: u64,
    pub exact: bool,
}

// Refusal 8, or refusal 9.
#[derive(Clone, Copy, Debug, PartialEq, Eq)]
pub enum NumberError {
    NotCarried,
    Outside,
}

// 999,999.999999
const MOST: u64 = 999999999999;

// The place of the point, or the length.
fn point_at(raw: &[u8]) -> usize
    ensures { Parts raw.now result }
{
    let mut i = 0;
    while i < raw.len() {
        if raw[i] == b'.' {
            return i;
        }
        i += 1;
    }
    i
}

fn figure(b: u8) -> u64
    ensures value { result ≡ figure_of b }
    ensures upper_bound { result ≤ 9 }
{
    if b < 48 {
        return 0;
    }
    if b < 58 {
        return byte::wide(b) - 48;
    }
    0
}

fn counted(raw: &[u8]) -> u64
    requires { length raw.now ≤ 18 }
    ensures value { result ≡ counted_in 0 raw.now }
    ensures upper_bound { result < 10 ^ 18 }
{
    let mut i = 0;
    let mut v: u64 = 0;
    while i < raw.len() {
        v = v * 10 + figure(raw[i]);
        i += 1;
    }
    v
}

// Six digits more behind v, with zeros where there are fewer.
fn padded(raw: &[u8], v: u64) -> u64
    requires { v ≤ 999999999999 }
    ensures { result ≡ padded_in 6 v raw.now }
{
    let mut i: usize = 0;
    let mut n = v;
    while i < 6 {
        n = n * 10;
        if i < raw.len() {
            n += figure(raw[i]);
        }
        i += 1;
    }
    n
}

// The fraction of a number whose point, or whose end, is at `point`.
fn fraction_at(raw: &[u8], point: usize) -> &[u8]
    requires { Parts raw.now point }
    ensures { result.now ≡ behind_point raw.now }
{
    if point < raw.len() {
        return &raw[point + 1..];
    }
    &raw[point..]
}

fn integer_among(least: u64, most: u64, n: u64, exact: bool) -> Result<Whole, NumberError>
    ensures { result ≡ among least most n exact }
{
    if n < least {
        return Err(NumberError::Outside);
    }
    if most < n {
        return Err(NumberError::Outside);
    }
    Ok(Whole { value: n, exact })
}

// An integer from `least` to `most`, by the bytes that it is written with.
pub fn integer_of(raw: &[u8], least: u64, most: u64) -> Result<Whole, NumberError>
    ensures { result ≡ integer_in least most raw.now }
{
    if !document_figures::is_carried(raw) {
        return Err(NumberError::NotCarried);
    }
    if document_figures::is_negative(raw) {
        return Err(NumberError::Outside);
    }
    let point = point_at(raw);
    let whole = counted(&raw[..point]);
    let fraction = fraction_at(raw, point);
    integer_among(
        least,
        most,
        whole + document_figures::rounding(fraction),
        document_figures::is_all_zero(fraction),
    )
}

fn amount_from(least: u64, n: u64) -> Result<u64, NumberError>
    ensures { result ≡ amount least n }
{
    if n < least {
        return Err(NumberError::Outside);
    }
    if MOST < n {
        return Err(NumberError::Outside);
    }
    Ok(n)
}

// A decimal from `least` millionths on, by the bytes that it is written with.
pub fn decimal_of(raw: &[u8], least: u64) -> Result<u64, NumberError>
    ensures { result ≡ decimal_from least raw.now }
{
    if !document_figures::is_carried(raw) {
        return Err(NumberError::NotCarried);
    }
    let point = point_at(raw);
    let fraction = fraction_at(raw, point);
    if !document_figures::has_millionths(fraction) {
        return Err(NumberError::NotCarried);
    }
    if document_figures::is_negative(raw) {
        return Err(NumberError::Outside);
    }
    let whole = counted(&raw[..point]);
    if MOST < whole {
        return Err(NumberError::Outside);
    }
    amount_from(least, padded(fraction, whole))
}

// The integer at a place of a walked text.
pub fn integer_at(text: &[u8], at: usize, least: u64, most: u64) -> Result<Whole, NumberError>
    ensures { result ≡ integer_in least most (written (drop at text.now)) }
{
    if text.len() <= at {
        return integer_of(&text[..0], least, most);
    }
    let end = json_move::behind_number(text, at);
    integer_of(&text[at..end], least, most)
}

// The decimal at a place of a walked text.
pub fn decimal_at(text: &[u8], at: usize, least: u64) -> Result<u64, NumberError>
    ensures { result ≡ decimal_from least (written (drop at text.now)) }
{
    if text.len() <= at {
        return decimal_of(&text[..0], least);
    }
    let end = json_move::behind_number(text, at);
    decimal_of(&text[at..end], least)
}
