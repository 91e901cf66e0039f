// Timed dosages (document 01, "Objects": DosageOnly to Interval).
ghost use Rattle.std.specs.Prelude.{List, ℕ, ◌≡◌, ◌≤◌, ◌<◌, cond, length};
ghost use Rattle.read_fields.specs.DaySets.{most_of};
ghost use Rattle.document.specs.Schema.{a_timed, under_days};
ghost use Rattle.read_records.specs.Under.{types_under};
ghost use Rattle.read_dosages.specs.Visiting.{TimedRows, OpensTimed, VisitsTyped, VisitsNeeded};
ghost use Rattle.read_dosages.specs.Kept.{Ready, Kept, OpensThere};
ghost use Rattle.read_dosages.specs.Timed.{AnswersTimed};

use crate::application::name_of;
use crate::{application, dosage};
use document::refusal::{Reason, Refusal};
use document::table::{RECORDS, WORDS};
use document::terms;
use document::terms::{Terms, Used};
use read_fields::days::Days;
use read_fields::{days, field};
use read_names::{Name, Object};
use read_records::allowed::{UNDER_DAYS, UNDER_MONTHS};
use read_records::{allowed, rows};
use read_type::opened;
use read_type::opened::Opened;

const DOSAGE_ONLY: [Name; 2] = [Name::T, Name::Do];

const INTERVAL: [Name; 4] = [Name::T, Name::Do, Name::MiDu, Name::MiDuU];

// A timed dosage as far as its type: 10 where the type may not stand under its parent.
fn open_timed(text: &[u8], at: usize, parent: usize, used: Used) -> Result<Opened, Refusal>
    requires { (parent < 5) × (at ≤ length text.now) }
    ensures opens_timed { OpensTimed parent text.now at used result }
    ensures opens_there { OpensThere parent used result }
{
    let o = opened::open_typed(text, at, 6, used)?;
    if !allowed::is_allowed(parent, o.kind) {
        return Err(Refusal(Reason::TypeNotAllowed, opened::type_place(&o.object)));
    }
    if rows::is_full(o.used) {
        return Err(Refusal(Reason::TooManyRecords, at));
    }
    Ok(o)
}

fn dosage_only(
    text: &[u8],
    at: usize,
    o: &Object,
    terms: Terms,
    used: Used,
    words: &mut [u64],
) -> Result<Used, Refusal>
    requires { Ready terms words.old used × (used.records < 64) × (at ≤ length text.now) }
    ensures by_index { (ts : List ℕ) → VisitsTyped terms (a_timed ts) 1 TimedRows text.now at o.now used words.old result words.new }
    ensures kept { Kept terms 1 words.old used result words.new }
{
    let i = used.records;
    opened::knows_all(text, at, o, &DOSAGE_ONLY)?;
    let used = terms::one_more(used);
    let used = dosage::read_below(text, at, o.slots.at(Name::Do), terms, used, words)?;
    rows::store(words, i, used, 6, 0, 0, 0, 0);
    Ok(used)
}

// Times and DaySegments, types 2 and 3. A timed dosage's tag is its type and 5.
fn applications(
    text: &[u8],
    at: usize,
    kind: u64,
    o: &Object,
    terms: Terms,
    used: Used,
    words: &mut [u64],
) -> Result<Used, Refusal>
    requires { Ready terms words.old used × (used.records < 64) × (at ≤ length text.now) × (2 ≤ kind) × (kind ≤ 3) }
    ensures by_index { (ts : List ℕ) → VisitsTyped terms (a_timed ts) kind TimedRows text.now at o.now used words.old result words.new }
    ensures kept { Kept terms 1 words.old used result words.new }
{
    let i = used.records;
    let timed = kind == 2;
    let own = name_of(timed, Name::Ts, Name::Ss);
    let known = [Name::T, own];
    opened::knows_all(text, at, o, &known)?;
    let l = field::list_field(text, at, o.slots.at(own))?;
    let used = terms::one_more(used);
    let used = application::read_applications(text, l, timed, terms, used, words)?;
    rows::store(words, i, used, kind + 5, 0, 0, 0, 0);
    Ok(used)
}

fn interval(
    text: &[u8],
    at: usize,
    o: &Object,
    terms: Terms,
    used: Used,
    words: &mut [u64],
) -> Result<Used, Refusal>
    requires { Ready terms words.old used × (used.records < 64) × (at ≤ length text.now) }
    ensures by_index { (ts : List ℕ) → VisitsTyped terms (a_timed ts) 6 TimedRows text.now at o.now used words.old result words.new }
    ensures kept { Kept terms 1 words.old used result words.new }
{
    let i = used.records;
    opened::knows_all(text, at, o, &INTERVAL)?;
    let used = terms::one_more(used);
    let used = dosage::read_below(text, at, o.slots.at(Name::Do), terms, used, words)?;
    let span = field::integer_field(text, at, o.slots.at(Name::MiDu), 1, 99999, used)?;
    let unit = field::integer_field(text, at, o.slots.at(Name::MiDuU), 1, 7, span.used)?;
    rows::store(words, i, unit.used, 11, span.value, unit.value, 0, 0);
    Ok(unit.used)
}

// Types 1, 2 and 3.
fn plain_timed(
    text: &[u8],
    at: usize,
    kind: u64,
    o: &Object,
    terms: Terms,
    used: Used,
    words: &mut [u64],
) -> Result<Used, Refusal>
    requires { Ready terms words.old used × (used.records < 64) × (at ≤ length text.now) × (1 ≤ kind) × (kind ≤ 3) }
    ensures by_index { (ts : List ℕ) → VisitsTyped terms (a_timed ts) kind TimedRows text.now at o.now used words.old result words.new }
    ensures kept { Kept terms 1 words.old used result words.new }
{
    match kind {
        1 => dosage_only(text, at, o, terms, used, words),
        _ => applications(text, at, kind, o, terms, used, words),
    }
}

// A timed dosage under WeekDays or DaysOfMonth.
fn read_under_days(
    text: &[u8],
    brace: usize,
    v: Option<usize>,
    terms: Terms,
    used: Used,
    words: &mut [u64],
) -> Result<Used, Refusal>
    requires { Ready terms words.old used × (brace ≤ length text.now) }
    ensures visits_needed { VisitsNeeded terms (a_timed under_days) TimedRows text.now brace v used words.old result words.new }
    ensures kept { Kept terms 1 words.old used result words.new }
{
    let at = field::object_field(text, brace, v)?;
    let o = open_timed(text, at, UNDER_DAYS, used)?;
    plain_timed(text, at, o.kind, &o.object, terms, o.used, words)
}

fn days_of(week: bool) -> Days
    ensures { most_of result ≡ cond week 7 28 }
{
    if week { Days::OfWeek } else { Days::OfMonth }
}

// WeekDays and DaysOfMonth, types 4 and 5.
fn on_days(
    text: &[u8],
    at: usize,
    kind: u64,
    o: &Object,
    terms: Terms,
    used: Used,
    words: &mut [u64],
) -> Result<Used, Refusal>
    requires { Ready terms words.old used × (used.records < 64) × (at ≤ length text.now) × (4 ≤ kind) × (kind ≤ 5) }
    ensures by_index { (ts : List ℕ) → VisitsTyped terms (a_timed ts) kind TimedRows text.now at o.now used words.old result words.new }
    ensures kept { Kept terms 1 words.old used result words.new }
{
    let i = used.records;
    let week = kind == 4;
    let own = name_of(week, Name::Wds, Name::Doms);
    let known = [Name::T, own, Name::Tdo];
    opened::knows_all(text, at, o, &known)?;
    let used = terms::one_more(used);
    let set = days::days_field(text, at, o.slots.at(own), days_of(week), used)?;
    let used = read_under_days(text, at, o.slots.at(Name::Tdo), terms, set.used, words)?;
    rows::store(words, i, used, kind + 5, set.value, 0, 0, 0);
    Ok(used)
}

// The timed dosage that must stand at v in the object at `brace`, under this parent.
fn timed_field(
    text: &[u8],
    brace: usize,
    v: Option<usize>,
    parent: usize,
    terms: Terms,
    used: Used,
    words: &mut [u64],
) -> Result<Used, Refusal>
    requires { Ready terms words.old used × (brace ≤ length text.now) × (parent < 5) }
    ensures visits_needed { VisitsNeeded terms (a_timed (types_under parent)) TimedRows text.now brace v used words.old result words.new }
    ensures kept { Kept terms 1 words.old used result words.new }
{
    let at = field::object_field(text, brace, v)?;
    let o = open_timed(text, at, parent, used)?;
    match o.kind {
        4 | 5 => on_days(text, at, o.kind, &o.object, terms, o.used, words),
        6 => interval(text, at, &o.object, terms, o.used, words),
        _ => plain_timed(text, at, o.kind, &o.object, terms, o.used, words),
    }
}

// The same for whatever is lent: words of another number, more taken than there is, a brace behind the text or a parent that is no row of the
// table are refused with 0.
pub fn read_timed(
    text: &[u8],
    brace: usize,
    v: Option<usize>,
    parent: usize,
    terms: Terms,
    used: Used,
    words: &mut [u64],
) -> Result<Used, Refusal>
    ensures { AnswersTimed terms text.now brace v parent used words.old result words.new }
{
    if words.len() == WORDS
        && used.records <= RECORDS
        && used.text <= terms.room
        && brace <= text.len()
        && parent <= UNDER_MONTHS
    {
        return timed_field(text, brace, v, parent, terms, used, words);
    }
    Err(Refusal(Reason::Unasked, 0))
}
