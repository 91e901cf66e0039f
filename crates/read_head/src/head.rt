// The head of a posology (document 01, "Objects": Posology).
ghost use Rattle.std.specs.Prelude.{◌≡◌, ◌≤◌, length};
ghost use Rattle.read_head.specs.HeadRows.{no_piece, piece_at, ReadsUnit, ReadsStrings, ReadsFromDetail};
ghost use Rattle.read_head.specs.Heads.{ReadsHead, AnswersHead};
ghost use Rattle.read_fields.specs.Fields.{TakesText};
ghost use Rattle.read_dosages.specs.Kept.{Ready};

use document::moments;
use document::refusal::{Reason, Refusal};
use document::table::{Date, MEAL_CODES, RECORDS, WORDS};
use document::terms::{Terms, Used};
use read_details::detail;
use read_fields::field;
use read_fields::field::Worded;
use read_names::{Name, Object};
use read_records::read::{HeadRead, Piece};
use read_type::opened;

const POSOLOGY: [Name; 9] = [
    Name::DtFrom,
    Name::DtTo,
    Name::InRes,
    Name::Po,
    Name::RelMeal,
    Name::Unit,
    Name::ApplInstr,
    Name::Roa,
    Name::Moa,
];

const MEALS: u64 = MEAL_CODES as u64;

fn no_piece() -> Piece
    ensures { result ≡ no_piece }
{
    Piece {
        quote: 0,
        start: 0,
        len: 0,
    }
}

// An absent string has start 0.
fn piece_at(quote: usize, start: usize, len: usize) -> Piece
    ensures { result ≡ piece_at quote start len }
{
    if len == 0 {
        return no_piece();
    }
    Piece { quote, start, len }
}

// "unit (optional for use 3)"
fn unit_field(
    text: &[u8],
    brace: usize,
    v: Option<usize>,
    terms: Terms,
    used: Used,
) -> Result<Worded, Refusal>
    requires { brace ≤ length text.now }
    ensures reads_unit { ReadsUnit terms text.now brace v used result }
    ensures takes_text { TakesText terms used result }
{
    if terms.purpose == 3 {
        return field::optional_text(text, v, terms, used);
    }
    field::text_field(text, brace, v, terms, used)
}

// The strings of the head, behind what is taken; then the dates' order (12).
fn with_strings(
    text: &[u8],
    at: usize,
    o: &Object,
    terms: Terms,
    h: HeadRead,
) -> Result<HeadRead, Refusal>
    requires { (at ≤ length text.now) × (h.used.text ≤ terms.room) }
    ensures { ReadsStrings terms text.now at o.now h result }
{
    let unit = unit_field(text, at, o.slots.at(Name::Unit), terms, h.used)?;
    let instructions = field::optional_text(text, o.slots.at(Name::ApplInstr), terms, unit.used)?;
    let roa = field::optional_text(text, o.slots.at(Name::Roa), terms, instructions.used)?;
    let moa = field::optional_text(text, o.slots.at(Name::Moa), terms, roa.used)?;
    let from = h.from;
    let to = h.to;
    if !moments::in_order(from, to) {
        return Err(Refusal(Reason::WrongOrder, at));
    }
    Ok(HeadRead {
        from,
        to,
        reserve: h.reserve,
        meal: h.meal,
        unit: piece_at(unit.quote, h.used.text, unit.len),
        instructions: piece_at(instructions.quote, unit.used.text, instructions.len),
        roa: piece_at(roa.quote, instructions.used.text, roa.len),
        moa: piece_at(moa.quote, roa.used.text, moa.len),
        used: moa.used,
    })
}

// The detail and the meal code, behind the dates and the reserve mark.
fn with_detail(
    text: &[u8],
    at: usize,
    o: &Object,
    terms: Terms,
    from: Date,
    to: Date,
    reserve: bool,
    used: Used,
    words: &mut [u64],
) -> Result<HeadRead, Refusal>
    requires { Ready terms words.old used × (at ≤ length text.now) }
    ensures { ReadsFromDetail terms text.now at o.now from to reserve used words.old result words.new }
{
    let used = detail::read_po(text, at, o.slots.at(Name::Po), terms, used, words)?;
    let meal = field::optional_integer(text, o.slots.at(Name::RelMeal), 1, MEALS, 0, used)?;
    let p = no_piece();
    let h = HeadRead {
        from,
        to,
        reserve,
        meal: (meal.value % 256) as u8,
        unit: p,
        instructions: p,
        roa: p,
        moa: p,
        used: meal.used,
    };
    with_strings(text, at, o, terms, h)
}

// The posology whose brace stands at `at`.
fn head_at(
    text: &[u8],
    at: usize,
    terms: Terms,
    used: Used,
    words: &mut [u64],
) -> Result<HeadRead, Refusal>
    requires { Ready terms words.old used × (at ≤ length text.now) }
    ensures { ReadsHead terms text.now at used words.old result words.new }
{
    let o = opened::open_plain(text, at)?;
    opened::knows_all(text, at, &o, &POSOLOGY)?;
    let from = field::date_field(text, o.slots.at(Name::DtFrom))?;
    let to = field::date_field(text, o.slots.at(Name::DtTo))?;
    let reserve = field::flag_field(text, o.slots.at(Name::InRes))?;
    with_detail(text, at, &o, terms, from, to, reserve, used, words)
}

// The same for whatever is lent: words of another number, more taken than there is, or a place behind the text are refused with 0.
pub fn read_head(
    text: &[u8],
    at: usize,
    terms: Terms,
    used: Used,
    words: &mut [u64],
) -> Result<HeadRead, Refusal>
    ensures { AnswersHead terms text.now at used words.old result words.new }
{
    let lent = words.len() == WORDS
        && used.records <= RECORDS
        && used.text <= terms.room
        && at <= text.len();
    if !lent {
        return Err(Refusal(Reason::Unasked, 0));
    }
    head_at(text, at, terms, used, words)
}
