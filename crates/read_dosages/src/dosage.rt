// Dosages (document 01, "Objects": Simple, FromTo, Range).
ghost use Rattle.std.specs.Prelude.{◌≤◌, ◌<◌, length};
ghost use Rattle.document.specs.Schema.{a_dosage};
ghost use Rattle.read_dosages.specs.Visiting.{DosageRows, VisitsTyped, VisitsObject, VisitsNeeded};
ghost use Rattle.read_dosages.specs.Kept.{Ready, Kept};

use document::refusal::{Reason, Refusal};
use document::terms;
use document::terms::{Terms, Used};
use read_fields::field;
use read_names::{Name, Object};
use read_records::rows;
use read_type::opened;

const SIMPLE: [Name; 2] = [Name::T, Name::A];

const FROM_TO: [Name; 5] = [Name::T, Name::AFrom, Name::ATo, Name::DuU, Name::Du];

const RANGE: [Name; 3] = [Name::T, Name::AMin, Name::AMax];

fn simple(
    text: &[u8],
    at: usize,
    o: &Object,
    terms: Terms,
    used: Used,
    words: &mut [u64],
) -> Result<Used, Refusal>
    requires { Ready terms words.old used × (used.records < 64) × (at ≤ length text.now) }
    ensures visits_typed { VisitsTyped terms a_dosage 1 DosageRows text.now at o.now used words.old result words.new }
    ensures kept { Kept terms 1 words.old used result words.new }
{
    let i = used.records;
    opened::knows_all(text, at, o, &SIMPLE)?;
    let amount = field::decimal_field(text, at, o.slots.at(Name::A), 1)?;
    let used = terms::one_more(used);
    rows::store(words, i, used, 12, amount, 0, 0, 0);
    Ok(used)
}

fn from_to(
    text: &[u8],
    at: usize,
    o: &Object,
    terms: Terms,
    used: Used,
    words: &mut [u64],
) -> Result<Used, Refusal>
    requires { Ready terms words.old used × (used.records < 64) × (at ≤ length text.now) }
    ensures visits_typed { VisitsTyped terms a_dosage 2 DosageRows text.now at o.now used words.old result words.new }
    ensures kept { Kept terms 1 words.old used result words.new }
{
    let i = used.records;
    opened::knows_all(text, at, o, &FROM_TO)?;
    let from = field::decimal_field(text, at, o.slots.at(Name::AFrom), 0)?;
    let to = field::decimal_field(text, at, o.slots.at(Name::ATo), 0)?;
    let used = terms::one_more(used);
    let unit = field::integer_field(text, at, o.slots.at(Name::DuU), 1, 7, used)?;
    let span = field::integer_field(text, at, o.slots.at(Name::Du), 1, 99999, unit.used)?;
    if to <= from {
        return Err(Refusal(Reason::WrongOrder, at));
    }
    rows::store(words, i, span.used, 13, from, to, unit.value, span.value);
    Ok(span.used)
}

fn range(
    text: &[u8],
    at: usize,
    o: &Object,
    terms: Terms,
    used: Used,
    words: &mut [u64],
) -> Result<Used, Refusal>
    requires { Ready terms words.old used × (used.records < 64) × (at ≤ length text.now) }
    ensures visits_typed { VisitsTyped terms a_dosage 3 DosageRows text.now at o.now used words.old result words.new }
    ensures kept { Kept terms 1 words.old used result words.new }
{
    let i = used.records;
    opened::knows_all(text, at, o, &RANGE)?;
    let min = field::decimal_field(text, at, o.slots.at(Name::AMin), 1)?;
    let max = field::decimal_field(text, at, o.slots.at(Name::AMax), 0)?;
    if max <= min {
        return Err(Refusal(Reason::WrongOrder, at));
    }
    let used = terms::one_more(used);
    rows::store(words, i, used, 14, min, max, 0, 0);
    Ok(used)
}

pub(crate) fn read_dosage(
    text: &[u8],
    at: usize,
    terms: Terms,
    used: Used,
    words: &mut [u64],
) -> Result<Used, Refusal>
    requires { Ready terms words.old used × (at ≤ length text.now) }
    ensures visits_object { VisitsObject terms a_dosage DosageRows text.now at used words.old result words.new }
    ensures kept { Kept terms 1 words.old used result words.new }
{
    let o = opened::open_typed(text, at, 3, used)?;
    if rows::is_full(o.used) {
        return Err(Refusal(Reason::TooManyRecords, at));
    }
    match o.kind {
        1 => simple(text, at, &o.object, terms, o.used, words),
        2 => from_to(text, at, &o.object, terms, o.used, words),
        _ => range(text, at, &o.object, terms, o.used, words),
    }
}

// The dosage that must stand at v in the object at `brace`.
pub(crate) fn read_below(
    text: &[u8],
    brace: usize,
    v: Option<usize>,
    terms: Terms,
    used: Used,
    words: &mut [u64],
) -> Result<Used, Refusal>
    requires { Ready terms words.old used × (brace ≤ length text.now) }
    ensures visits_needed { VisitsNeeded terms a_dosage DosageRows text.now brace v used words.old result words.new }
    ensures kept { Kept terms 1 words.old used result words.new }
{
    let at = field::object_field(text, brace, v)?;
    read_dosage(text, at, terms, used, words)
}
