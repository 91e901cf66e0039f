// The fields of an object: each by the place of its value, where one stands, and the object's brace.
ghost use Rattle.std.specs.Prelude.{◌≡◌, ◌≤◌, length, drop};
ghost use Rattle.json_move.specs.Read.{written, decoded};
ghost use Rattle.document_numbers.specs.Number.{integer_in, decimal_from};
ghost use Rattle.document.specs.Schema.{integer, decimal};
ghost use Rattle.document.specs.Visit.{is_empty};
ghost use Rattle.document.specs.Date.{time_of};
ghost use Rattle.read_fields.specs.Fields.{ReadsAt, ReadsNeeded, CountsAt, CountsNeeded, CountsOptional, CountsStill, CountsWithin, ReadsFlag, ObjectAt, ObjectNeeded, ListNeeded, ReadsText, ReadsOptionalText, TakesText, ReadsDate, ReadsTime, Inside};
ghost use Rattle.read_fields.specs.Reading.{standing, Required, OfKind, unread as unread_at, roomed, DateAt, time_at};

use crate::date;
use document::refusal::{Reason, Refusal};
use document::table::Date;
use document::terms;
use document::terms::{Terms, Used};
use document_numbers::NumberError;
use json_move::Kind;

// An integer, with what is taken behind it.
#[derive(Clone, Copy)]
pub struct Counted {
    pub value: u64,
    pub used: Used,
}

// A string's quote and its length in decoded bytes, both 0 where it is absent as in the table, with what is taken behind it.
#[derive(Clone, Copy)]
pub struct Worded {
    pub quote: usize,
    pub len: usize,
    pub used: Used,
}

// The value of a field: null is none.
fn present(text: &[u8], v: Option<usize>) -> Option<usize>
    ensures { result ≡ standing text.now v }
{
    match v {
        Some(at) if json_move::kind_at(text, at) != Kind::Null => v,
        _ => None,
    }
}

// A value that must be there: 7.
fn required(text: &[u8], brace: usize, v: Option<usize>) -> Result<usize, Refusal>
    ensures { Required text.now brace v result }
{
    present(text, v).ok_or(Refusal(Reason::Missing, brace))
}

// A value of the kind that is asked for: 4.
fn of_kind(text: &[u8], at: usize, kind: Kind) -> Result<usize, Refusal>
    ensures { OfKind text.now at kind result }
{
    if json_move::kind_at(text, at) != kind {
        return Err(Refusal(Reason::WrongKind, at));
    }
    Ok(at)
}

// A number that cannot be taken: 8, 9.
fn unread(at: usize, e: NumberError) -> Refusal
    ensures { result ≡ unread_at at e }
{
    match e {
        NumberError::NotCarried => Refusal(Reason::NotCarried, at),
        NumberError::Outside => Refusal(Reason::OutOfRange, at),
    }
}

// An integer in a list, or a field that is there: 4, 8, 9.
pub(crate) fn integer_value(
    text: &[u8],
    at: usize,
    least: u64,
    most: u64,
    used: Used,
) -> Result<Counted, Refusal>
    ensures counts_at { CountsAt text.now at (integer least most) used result }
    ensures counts_still { CountsStill used result }
    ensures counts_within { CountsWithin least most result }
{
    let at = of_kind(text, at, Kind::Number)?;
    match document_numbers::integer_at(text, at, least, most) {
        Ok(whole) => Ok(Counted {
            value: whole.value,
            used,
        }),
        Err(e) => Err(unread(at, e)),
    }
}

// An integer that must be there: 7, then as any.
pub fn integer_field(
    text: &[u8],
    brace: usize,
    v: Option<usize>,
    least: u64,
    most: u64,
    used: Used,
) -> Result<Counted, Refusal>
    ensures counts_needed { brace ≤ length text.now → CountsNeeded text.now brace v (integer least most) used result }
    ensures counts_still { CountsStill used result }
    ensures counts_within { CountsWithin least most result }
{
    let at = required(text, brace, v)?;
    integer_value(text, at, least, most, used)
}

// An integer that may be absent, and counts `absent` then.
pub fn optional_integer(
    text: &[u8],
    v: Option<usize>,
    least: u64,
    most: u64,
    absent: u64,
    used: Used,
) -> Result<Counted, Refusal>
    ensures counts_optional { CountsOptional text.now v (integer least most) absent used result }
    ensures counts_still { CountsStill used result }
{
    match present(text, v) {
        Some(at) => integer_value(text, at, least, most, used),
        None => Ok(Counted {
            value: absent,
            used,
        }),
    }
}

pub fn decimal_value(text: &[u8], at: usize, least: u64) -> Result<u64, Refusal>
    ensures { ReadsAt text.now at (decimal least) result }
{
    let at = of_kind(text, at, Kind::Number)?;
    document_numbers::decimal_at(text, at, least).map_err(|e| unread(at, e))
}

#[tactic(auto, using(crate::proofs::Values::number_missing, crate::proofs::Values::number_needed))]
pub fn decimal_field(
    text: &[u8],
    brace: usize,
    v: Option<usize>,
    least: u64,
) -> Result<u64, Refusal>
    ensures { brace ≤ length text.now → ReadsNeeded text.now brace v (decimal least) result }
{
    let at = required(text, brace, v)?;
    decimal_value(text, at, least)
}

// An absent mark is false.
#[tactic(auto, using(crate::proofs::Values::flag_absent, crate::proofs::Values::flag_given, crate::proofs::Values::flag_refused))]
pub fn flag_field(text: &[u8], v: Option<usize>) -> Result<bool, Refusal>
    ensures { ReadsFlag text.now v result }
{
    let Some(at) = present(text, v) else {
        return Ok(false);
    };
    match json_move::kind_at(text, at) {
        Kind::True => Ok(true),
        Kind::False => Ok(false),
        _ => Err(Refusal(Reason::WrongKind, at)),
    }
}

// An object in a list: 4.
#[tactic(auto, using(crate::proofs::Values::object_at, crate::proofs::Held::object_inside))]
pub fn object_value(text: &[u8], at: usize) -> Result<usize, Refusal>
    ensures object_at { ObjectAt text.now at result }
    ensures inside { Inside text.now result }
{
    of_kind(text, at, Kind::Object)
}

// An object that must be there: 7, 4.
#[tactic(auto, using(crate::proofs::Values::object_missing, crate::proofs::Values::object_needed))]
pub fn object_field(text: &[u8], brace: usize, v: Option<usize>) -> Result<usize, Refusal>
    ensures object_needed { brace ≤ length text.now → ObjectNeeded text.now brace v result }
    ensures inside { Inside text.now result }
{
    let at = required(text, brace, v)?;
    object_value(text, at)
}

// A list that must be there: 7, 4.
#[tactic(auto, using(crate::proofs::Values::list_missing, crate::proofs::Values::list_needed, crate::proofs::Held::array_inside))]
pub fn list_field(text: &[u8], brace: usize, v: Option<usize>) -> Result<usize, Refusal>
    ensures list_needed { brace ≤ length text.now → ListNeeded text.now brace v result }
    ensures inside { Inside text.now result }
{
    let at = required(text, brace, v)?;
    of_kind(text, at, Kind::Array)
}

// What a string that is there and not empty comes to: 16.
fn within_room(quote: usize, len: usize, terms: Terms, used: Used) -> Result<Worded, Refusal>
    ensures { result ≡ roomed terms quote len used }
{
    if terms::room_left(terms, used) < len {
        return Err(Refusal(Reason::NoTextRoom, quote));
    }
    let used = Used {
        text: used.text + len,
        ..used
    };
    Ok(Worded { quote, len, used })
}

// A string that must be there: 7, 4, 16.
pub fn text_field(
    text: &[u8],
    brace: usize,
    v: Option<usize>,
    terms: Terms,
    used: Used,
) -> Result<Worded, Refusal>
    ensures reads_text { brace ≤ length text.now → ReadsText terms text.now brace v used result }
    ensures takes_text { TakesText terms used result }
{
    let at = required(text, brace, v)?;
    let quote = of_kind(text, at, Kind::Text)?;
    let len = json_lay::decoded_length(text, quote);
    if len == 0 {
        return Err(Refusal(Reason::Missing, brace));
    }
    within_room(quote, len, terms, used)
}

// A string that may be absent: 4, 16.
#[tactic(auto, using(crate::proofs::Texts::text_absent, crate::proofs::Texts::text_not_given, crate::proofs::Texts::empty_given, crate::proofs::Texts::text_given))]
pub fn optional_text(
    text: &[u8],
    v: Option<usize>,
    terms: Terms,
    used: Used,
) -> Result<Worded, Refusal>
    ensures reads_optional_text { ReadsOptionalText terms text.now v used result }
    ensures takes_text { TakesText terms used result }
{
    let absent = Worded {
        quote: 0,
        len: 0,
        used,
    };
    let Some(at) = present(text, v) else {
        return Ok(absent);
    };
    let quote = of_kind(text, at, Kind::Text)?;
    let len = json_lay::decoded_length(text, quote);
    if len == 0 {
        return Ok(absent);
    }
    within_room(quote, len, terms, used)
}

// The longest date, yyyy-mm-ddThh:mm:ss+hh:mm.
const DATE: usize = 25;

fn date_read(text: &[u8], quote: usize) -> Result<Date, Refusal>
    ensures { DateAt quote (decoded (drop quote text.now)) result }
{
    let refusal = Refusal(Reason::NotADate, quote);
    let mut bytes = [0; DATE];
    let Some(len) = json_lay::lay(text, quote, &mut bytes, 0) else {
        return Err(refusal);
    };
    if len == 0 {
        return Ok(Date::Absent);
    }
    date::date_of(&bytes[..len]).ok_or(refusal)
}

// A date that may be absent: 4, 13.
#[tactic(auto, using(crate::proofs::DateFields::date_absent, crate::proofs::DateFields::date_refused, crate::proofs::DateFields::date_given))]
pub fn date_field(text: &[u8], v: Option<usize>) -> Result<Date, Refusal>
    ensures { ReadsDate text.now v result }
{
    let Some(at) = present(text, v) else {
        return Ok(Date::Absent);
    };
    let quote = of_kind(text, at, Kind::Text)?;
    date_read(text, quote)
}

fn time_read(text: &[u8], brace: usize, quote: usize) -> Result<u64, Refusal>
    ensures { result ≡ time_at brace quote (is_empty (decoded (drop quote text.now))) (time_of (decoded (drop quote text.now))) }
{
    let refusal = Refusal(Reason::NotADate, quote);
    let mut bytes = [0; DATE];
    let Some(len) = json_lay::lay(text, quote, &mut bytes, 0) else {
        return Err(refusal);
    };
    if len == 0 {
        return Err(Refusal(Reason::Missing, brace));
    }
    date::time_of(&bytes[..len]).ok_or(refusal)
}

// A time of day that must be there: 7, 4, 13.
#[tactic(auto, using(crate::proofs::DateFields::time_missing, crate::proofs::DateFields::time_refused, crate::proofs::DateFields::time_needed))]
pub fn time_field(text: &[u8], brace: usize, v: Option<usize>) -> Result<u64, Refusal>
    ensures { brace ≤ length text.now → ReadsTime text.now brace v result }
{
    let at = required(text, brace, v)?;
    let quote = of_kind(text, at, Kind::Text)?;
    time_read(text, brace, quote)
}
