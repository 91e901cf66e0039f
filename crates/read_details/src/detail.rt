// Details and sequences (document 01, "Objects": Daily to Sequence, PosologySequence, Pause).
// Reading a detail calls reading a sequence and back; the sequences still allowed are the number that falls.
ghost use Rattle.std.specs.Prelude.{ℕ, suc, ◌≤◌, ◌<◌, length};
ghost use Rattle.document.specs.Schema.{a_detail, a_sequence_object};
ghost use Rattle.read_dosages.specs.Visiting.{VisitsTyped, VisitsObject, VisitsEach, VisitsNeeded};
ghost use Rattle.read_dosages.specs.Kept.{Ready, Kept};
ghost use Rattle.read_details.specs.Rows.{DetailAt, ObjectIn, ObjectsIn};
ghost use Rattle.read_details.specs.Detail.{VisitsSequence, AnswersDetail};

use document::refusal::{Reason, Refusal};
use document::table::{RECORDS, WORDS};
use document::terms;
use document::terms::{Terms, Used};
use read_dosages::timed;
use read_fields::{field, four};
use read_names::{Name, Object};
use read_records::allowed::UNDER_SINGLE;
use read_records::{allowed, rows};
use read_type::opened;

// "at most 3 sequences inside one another"
const SEQUENCES: usize = 3;

const DAILY: [Name; 2] = [Name::T, Name::Ds];

const FREE_TEXT: [Name; 2] = [Name::T, Name::Text];

const SINGLE: [Name; 2] = [Name::T, Name::Tdo];

const CYCLIC: [Name; 5] = [Name::T, Name::CyDuU, Name::CyDu, Name::Tdo, Name::Tdpc];

const SEQUENCE: [Name; 2] = [Name::T, Name::Sos];

const POSOLOGY_SEQUENCE: [Name; 4] = [Name::T, Name::Du, Name::DuU, Name::Po];

const PAUSE: [Name; 3] = [Name::T, Name::Du, Name::DuU];

fn daily(
    text: &[u8],
    at: usize,
    o: &Object,
    terms: Terms,
    used: Used,
    words: &mut [u64],
) -> Result<Used, Refusal>
    requires { Ready terms words.old used × (used.records < 64) × (at ≤ length text.now) }
    ensures by_index { (n : ℕ) → VisitsTyped terms (a_detail n) 1 (DetailAt text.now) text.now at o.now used words.old result words.new }
    ensures kept { Kept terms 1 words.old used result words.new }
{
    let i = used.records;
    opened::knows_all(text, at, o, &DAILY)?;
    let four = four::four_field(text, at, o.slots.at(Name::Ds))?;
    let used = terms::one_more(used);
    rows::store(
        words,
        i,
        used,
        1,
        four.morning,
        four.noon,
        four.evening,
        four.night,
    );
    Ok(used)
}

// The record keeps the quote's place until the strings are laid down.
fn free_text(
    text: &[u8],
    at: usize,
    o: &Object,
    terms: Terms,
    used: Used,
    words: &mut [u64],
) -> Result<Used, Refusal>
    requires { Ready terms words.old used × (used.records < 64) × (at ≤ length text.now) }
    ensures by_index { (n : ℕ) → VisitsTyped terms (a_detail n) 2 (DetailAt text.now) text.now at o.now used words.old result words.new }
    ensures kept { Kept terms 1 words.old used result words.new }
{
    let i = used.records;
    opened::knows_all(text, at, o, &FREE_TEXT)?;
    let start = used.text as u64;
    let used = terms::one_more(used);
    let free = field::text_field(text, at, o.slots.at(Name::Text), terms, used)?;
    rows::store(
        words,
        i,
        free.used,
        2,
        start,
        free.len as u64,
        free.quote as u64,
        0,
    );
    Ok(free.used)
}

fn single(
    text: &[u8],
    at: usize,
    o: &Object,
    terms: Terms,
    used: Used,
    words: &mut [u64],
) -> Result<Used, Refusal>
    requires { Ready terms words.old used × (used.records < 64) × (at ≤ length text.now) }
    ensures by_index { (n : ℕ) → VisitsTyped terms (a_detail n) 3 (DetailAt text.now) text.now at o.now used words.old result words.new }
    ensures kept { Kept terms 1 words.old used result words.new }
{
    let i = used.records;
    opened::knows_all(text, at, o, &SINGLE)?;
    let used = terms::one_more(used);
    let tdo = o.slots.at(Name::Tdo);
    let used = timed::read_timed(text, at, tdo, UNDER_SINGLE, terms, used, words)?;
    rows::store(words, i, used, 3, 0, 0, 0, 0);
    Ok(used)
}

fn cyclic(
    text: &[u8],
    at: usize,
    o: &Object,
    terms: Terms,
    used: Used,
    words: &mut [u64],
) -> Result<Used, Refusal>
    requires { Ready terms words.old used × (used.records < 64) × (at ≤ length text.now) }
    ensures by_index { (n : ℕ) → VisitsTyped terms (a_detail n) 4 (DetailAt text.now) text.now at o.now used words.old result words.new }
    ensures kept { Kept terms 1 words.old used result words.new }
{
    let i = used.records;
    opened::knows_all(text, at, o, &CYCLIC)?;
    let used = terms::one_more(used);
    let unit = field::integer_field(text, at, o.slots.at(Name::CyDuU), 1, 7, used)?;
    let span = field::integer_field(text, at, o.slots.at(Name::CyDu), 1, 99999, unit.used)?;
    let under = allowed::under_cyclic(unit.value);
    let tdo = o.slots.at(Name::Tdo);
    let used = timed::read_timed(text, at, tdo, under, terms, span.used, words)?;
    let per = field::optional_integer(text, o.slots.at(Name::Tdpc), 1, 99999, 1, used)?;
    rows::store(words, i, per.used, 4, unit.value, span.value, per.value, 0);
    Ok(per.used)
}

fn pause(
    text: &[u8],
    at: usize,
    o: &Object,
    terms: Terms,
    used: Used,
    words: &mut [u64],
) -> Result<Used, Refusal>
    requires { Ready terms words.old used × (used.records < 64) × (at ≤ length text.now) }
    ensures by_index { (n : ℕ) → VisitsTyped terms (a_sequence_object n) 2 (ObjectIn text.now) text.now at o.now used words.old result words.new }
    ensures kept { Kept terms 1 words.old used result words.new }
{
    let i = used.records;
    opened::knows_all(text, at, o, &PAUSE)?;
    let used = terms::one_more(used);
    let span = field::integer_field(text, at, o.slots.at(Name::Du), 1, 99999, used)?;
    let unit = field::integer_field(text, at, o.slots.at(Name::DuU), 1, 7, span.used)?;
    rows::store(words, i, unit.used, 16, span.value, unit.value, 0, 0);
    Ok(unit.used)
}

#[cycle(details)]
fn posology_sequence(
    text: &[u8],
    at: usize,
    o: &Object,
    left: usize,
    terms: Terms,
    used: Used,
    words: &mut [u64],
) -> Result<Used, Refusal>
    requires { Ready terms words.old used × (used.records < 64) × (at ≤ length text.now) }
    ensures visits_typed { VisitsTyped terms (a_sequence_object left) 1 (ObjectIn text.now) text.now at o.now used words.old result words.new }
    ensures kept { Kept terms 1 words.old used result words.new }
{
    let i = used.records;
    opened::knows_all(text, at, o, &POSOLOGY_SEQUENCE)?;
    let used = terms::one_more(used);
    let span = field::integer_field(text, at, o.slots.at(Name::Du), 1, 99999, used)?;
    let unit = field::integer_field(text, at, o.slots.at(Name::DuU), 1, 7, span.used)?;
    let po = o.slots.at(Name::Po);
    let used = read_detail(text, at, po, left, terms, unit.used, words)?;
    rows::store(words, i, used, 15, span.value, unit.value, 0, 0);
    Ok(used)
}

// One object of a sequence.
#[cycle(details)]
fn read_sequence_object(
    text: &[u8],
    at: usize,
    left: usize,
    terms: Terms,
    used: Used,
    words: &mut [u64],
) -> Result<Used, Refusal>
    requires { Ready terms words.old used × (at ≤ length text.now) }
    ensures visits_object { VisitsObject terms (a_sequence_object left) (ObjectIn text.now) text.now at used words.old result words.new }
    ensures kept { Kept terms 1 words.old used result words.new }
{
    let o = opened::open_typed(text, at, 2, used)?;
    if rows::is_full(o.used) {
        return Err(Refusal(Reason::TooManyRecords, at));
    }
    match o.kind {
        1 => posology_sequence(text, at, &o.object, left, terms, o.used, words),
        _ => pause(text, at, &o.object, terms, o.used, words),
    }
}

// The objects of the sequence's list at `at`.
#[cycle(details)]
fn read_objects(
    text: &[u8],
    at: usize,
    left: usize,
    terms: Terms,
    first: Used,
    words: &mut [u64],
) -> Result<Used, Refusal>
    requires { Ready terms words.old first × (at ≤ length text.now) }
    ensures visits_each { VisitsEach terms (a_sequence_object left) (ObjectsIn text.now) text.now at first words.old result words.new }
    ensures kept { Kept terms 0 words.old first result words.new }
{
    let mut used = first;
    let mut e = json_move::first_in(text, at);
    while !json_move::at_end(text, e) {
        let v = field::object_value(text, e)?;
        used = read_sequence_object(text, v, left, terms, used, words)?;
        e = json_move::next_after(text, e);
    }
    Ok(used)
}

// A sequence: so many may still open inside it.
#[cycle(details)]
fn read_sequence(
    text: &[u8],
    at: usize,
    o: &Object,
    inside: usize,
    terms: Terms,
    used: Used,
    words: &mut [u64],
) -> Result<Used, Refusal>
    requires { Ready terms words.old used × (used.records < 64) × (at ≤ length text.now) }
    ensures visits_typed { VisitsTyped terms (a_detail (suc inside)) 5 (DetailAt text.now) text.now at o.now used words.old result words.new }
    ensures kept { Kept terms 1 words.old used result words.new }
{
    let i = used.records;
    opened::knows_all(text, at, o, &SEQUENCE)?;
    let l = field::list_field(text, at, o.slots.at(Name::Sos))?;
    if json_move::at_end(text, json_move::first_in(text, l)) {
        return Err(Refusal(Reason::WrongCount, l));
    }
    let used = terms::one_more(used);
    let used = read_objects(text, l, inside, terms, used, words)?;
    rows::store(words, i, used, 5, 0, 0, 0, 0);
    Ok(used)
}

// 14 where no sequence may open, 15 where no record is left.
#[cycle(details)]
fn open_sequence(
    text: &[u8],
    at: usize,
    o: &Object,
    left: usize,
    terms: Terms,
    used: Used,
    words: &mut [u64],
) -> Result<Used, Refusal>
    requires { Ready terms words.old used × (at ≤ length text.now) }
    ensures visits_sequence { VisitsSequence terms left text.now at o.now used words.old result words.new }
    ensures kept { Kept terms 1 words.old used result words.new }
{
    if left == 0 {
        return Err(Refusal(Reason::SequenceTooDeep, opened::type_place(o)));
    }
    if rows::is_full(used) {
        return Err(Refusal(Reason::TooManyRecords, at));
    }
    read_sequence(text, at, o, left - 1, terms, used, words)
}

// The detail by its type, which is 1 to 4.
fn plain_detail(
    text: &[u8],
    at: usize,
    kind: u64,
    o: &Object,
    terms: Terms,
    used: Used,
    words: &mut [u64],
) -> Result<Used, Refusal>
    requires { Ready terms words.old used × (used.records < 64) × (at ≤ length text.now) }
    ensures visits_typed { 1 ≤ kind → kind ≤ 4 → (n : ℕ) → VisitsTyped terms (a_detail n) kind (DetailAt text.now) text.now at o.now used words.old result words.new }
    ensures kept { Kept terms 1 words.old used result words.new }
{
    match kind {
        1 => daily(text, at, o, terms, used, words),
        2 => free_text(text, at, o, terms, used, words),
        3 => single(text, at, o, terms, used, words),
        _ => cyclic(text, at, o, terms, used, words),
    }
}

// The detail at `at`: so many sequences may still open.
#[cycle(details)]
fn visit_detail(
    text: &[u8],
    at: usize,
    left: usize,
    terms: Terms,
    used: Used,
    words: &mut [u64],
) -> Result<Used, Refusal>
    requires { Ready terms words.old used × (at ≤ length text.now) }
    ensures visits_object { VisitsObject terms (a_detail left) (DetailAt text.now) text.now at used words.old result words.new }
    ensures kept { Kept terms 1 words.old used result words.new }
{
    let o = opened::open_typed(text, at, 5, used)?;
    if o.kind == 5 {
        return open_sequence(text, at, &o.object, left, terms, o.used, words);
    }
    if rows::is_full(o.used) {
        return Err(Refusal(Reason::TooManyRecords, at));
    }
    plain_detail(text, at, o.kind, &o.object, terms, o.used, words)
}

// The detail that must stand at v in the object at `brace`.
#[cycle(details)]
fn read_detail(
    text: &[u8],
    brace: usize,
    v: Option<usize>,
    left: usize,
    terms: Terms,
    used: Used,
    words: &mut [u64],
) -> Result<Used, Refusal>
    requires { Ready terms words.old used × (brace ≤ length text.now) }
    ensures visits_needed { VisitsNeeded terms (a_detail left) (DetailAt text.now) text.now brace v used words.old result words.new }
    ensures kept { Kept terms 1 words.old used result words.new }
{
    let at = field::object_field(text, brace, v)?;
    visit_detail(text, at, left, terms, used, words)
}

// The detail of the posology at `brace`, for whatever is lent: words of another number, more taken than there is, or a brace behind the text are
// refused with 0.
pub fn read_po(
    text: &[u8],
    brace: usize,
    v: Option<usize>,
    terms: Terms,
    used: Used,
    words: &mut [u64],
) -> Result<Used, Refusal>
    ensures { AnswersDetail terms text.now brace v used words.old result words.new }
{
    let lent = words.len() == WORDS
        && used.records <= RECORDS
        && used.text <= terms.room
        && brace <= text.len();
    if !lent {
        return Err(Refusal(Reason::Unasked, 0));
    }
    read_detail(text, brace, v, SEQUENCES, terms, used, words)
}
