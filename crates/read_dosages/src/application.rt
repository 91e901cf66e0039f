// Applications, at a time or in a segment of the day (document 01, "Objects").
ghost use Rattle.std.specs.Prelude.{◌≤◌, ◌<◌, ◌≡◌, cond, [], length};
ghost use Rattle.read_dosages.specs.Visiting.{an_application, ApplicationRows, ApplicationsRows, ReadsOwn, VisitsObject, VisitsBody, VisitsEach};
ghost use Rattle.read_fields.specs.Fields.{CountsStill};
ghost use Rattle.read_dosages.specs.Kept.{Ready, Kept};

use crate::dosage;
use document::refusal::{Reason, Refusal};
use document::terms;
use document::terms::{Terms, Used};
use read_fields::field;
use read_fields::field::Counted;
use read_names::{Name, Object};
use read_records::rows;
use read_type::opened;

// The name that only one of two objects read alike has.
pub(crate) fn name_of(first: bool, a: Name, b: Name) -> Name
    ensures { result ≡ cond first a b }
{
    if first { a } else { b }
}

fn tag_of(timed: bool) -> u64
    ensures { result ≡ cond timed 17 18 }
{
    if timed { 17 } else { 18 }
}

// The time of day, or the segment of the day. A time leaves alone what is taken.
fn own_field(
    text: &[u8],
    at: usize,
    v: Option<usize>,
    timed: bool,
    used: Used,
) -> Result<Counted, Refusal>
    ensures reads_own { at ≤ length text.now → ReadsOwn timed text.now at v used result }
    ensures counts_still { CountsStill used result }
{
    if timed {
        let value = field::time_field(text, at, v)?;
        return Ok(Counted { value, used });
    }
    field::integer_field(text, at, v, 1, 4, used)
}

fn read_application(
    text: &[u8],
    at: usize,
    timed: bool,
    terms: Terms,
    used: Used,
    words: &mut [u64],
) -> Result<Used, Refusal>
    requires { Ready terms words.old used × (at ≤ length text.now) }
    ensures visits_object { VisitsObject terms (an_application timed) (ApplicationRows timed) text.now at used words.old result words.new }
    ensures kept { Kept terms 1 words.old used result words.new }
{
    let o = opened::open_plain(text, at)?;
    if rows::is_full(used) {
        return Err(Refusal(Reason::TooManyRecords, at));
    }
    application_fields(text, at, &o, timed, terms, used, words)
}

fn application_fields(
    text: &[u8],
    at: usize,
    o: &Object,
    timed: bool,
    terms: Terms,
    used: Used,
    words: &mut [u64],
) -> Result<Used, Refusal>
    requires { Ready terms words.old used × (used.records < 64) × (at ≤ length text.now) }
    ensures visits_body { VisitsBody terms (an_application timed) 0 [] (ApplicationRows timed) text.now at o.now used words.old result words.new }
    ensures kept { Kept terms 1 words.old used result words.new }
{
    let i = used.records;
    let own = name_of(timed, Name::Dt, Name::S);
    let known = [Name::Do, own];
    opened::knows_all(text, at, o, &known)?;
    let used = terms::one_more(used);
    let used = dosage::read_below(text, at, o.slots.at(Name::Do), terms, used, words)?;
    let when = own_field(text, at, o.slots.at(own), timed, used)?;
    rows::store(words, i, when.used, tag_of(timed), when.value, 0, 0, 0);
    Ok(when.used)
}

// The applications of the list at `at`. Each takes a record, so there are never more than those left.
pub(crate) fn read_applications(
    text: &[u8],
    at: usize,
    timed: bool,
    terms: Terms,
    first: Used,
    words: &mut [u64],
) -> Result<Used, Refusal>
    requires { Ready terms words.old first × (at ≤ length text.now) }
    ensures visits_each { VisitsEach terms (an_application timed) (ApplicationsRows timed) text.now at first words.old result words.new }
    ensures kept { Kept terms 0 words.old first result words.new }
{
    let mut used = first;
    let mut e = json_move::first_in(text, at);
    while !json_move::at_end(text, e) {
        let v = field::object_value(text, e)?;
        used = read_application(text, v, timed, terms, used, words)?;
        e = json_move::next_after(text, e);
    }
    Ok(used)
}
