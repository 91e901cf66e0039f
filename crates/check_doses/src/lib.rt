// Whether words lay out a detail without strings: its doses, their times and their days (document 01, "Objects" and "The table").
#![tactic(auto)]

mod records;

ghost use Rattle.std.specs.Prelude.{◌<◌, ◌≤◌};
ghost use Rattle.check_doses.specs.Shapes.{Decides, Row};
ghost use Rattle.check_doses.specs.Doses.{Rising, DosageAt, ApplicationAt, ApplicationsAt, ListedAt, PlainAt, Nested, DaysAt, IntervalAt, TimedAt, SingleAt, CyclicAt, StillAt};

use document::table::{RECORDS, WIDTH, WORDS};
use records::{
    AT_TIME, CYCLIC, DAILY, DAY_SEGMENTS, DAYS_OF_MONTH, DOSAGE_ONLY, FROM_TO, IN_SEGMENT,
    INTERVAL, RANGE, SIMPLE, SINGLE, TIMES, WEEK_DAYS,
};
pub use records::{BLANK, Bounds, INTEGER, NOTHING, SOME_BELOW, Shape, UNIT};

// A record of this shape at i.
pub fn row(words: &[u64; WORDS], i: usize, shape: Shape) -> bool
    ensures { Decides (Row words.now i shape) result }
{
    if RECORDS <= i {
        return false;
    }
    let at = i * WIDTH;
    words[at] == shape.tag
        && shape.below.hold(words[at + 1])
        && shape.a.hold(words[at + 2])
        && shape.b.hold(words[at + 3])
        && shape.c.hold(words[at + 4])
        && shape.d.hold(words[at + 5])
}

// A dosage from a least to a greatest amount, at i.
fn rising(words: &[u64; WORDS], i: usize, shape: Shape) -> bool
    ensures { Decides (Rising words.now i shape) result }
{
    row(words, i, shape) && table_rows::a(words, i) < table_rows::b(words, i)
}

fn dosage(words: &[u64; WORDS], i: usize) -> bool
    ensures { Decides (DosageAt words.now i) result }
{
    row(words, i, SIMPLE) || rising(words, i, FROM_TO) || rising(words, i, RANGE)
}

// A record of this shape at i, and its dosage behind it.
fn application(words: &[u64; WORDS], i: usize, shape: Shape) -> bool
    ensures { Decides (ApplicationAt words.now i shape) result }
{
    row(words, i, shape) && dosage(words, i + 1)
}

// The applications from i on, up to record `end`. No plainer by a step_by: an odd record at the end is refused.
fn applications(words: &[u64; WORDS], i: usize, end: usize, each: Shape) -> bool
    ensures { Decides (ApplicationsAt words.now end each i) result }
{
    let mut at = i;
    while at < end {
        if !application(words, at, each) {
            return false;
        }
        at += 2;
    }
    at == end
}

fn listed(words: &[u64; WORDS], i: usize, own: Shape, each: Shape) -> bool
    requires { own.below.most ≤ 63 }
    ensures { Decides (ListedAt words.now i own each) result }
{
    if !row(words, i, own) {
        return false;
    }
    let first = i + 1;
    let n = table_rows::below(words, i);
    applications(words, first, first + n, each)
}

// A timed dosage of type 1, 2 or 3 at i.
fn plain(words: &[u64; WORDS], i: usize) -> bool
    ensures { Decides (PlainAt words.now i) result }
{
    application(words, i, DOSAGE_ONLY)
        || listed(words, i, TIMES, AT_TIME)
        || listed(words, i, DAY_SEGMENTS, IN_SEGMENT)
}

// The records below record i are those of the one behind it.
pub fn nested(words: &[u64; WORDS], i: usize) -> bool
    ensures { i < 63 → Decides (Nested words.now i) result }
{
    if RECORDS - 1 <= i {
        return false;
    }
    let n = table_rows::below(words, i);
    0 < n && table_rows::below(words, i + 1) == n - 1
}

// A set of days, not empty, and a timed dosage.
fn days(words: &[u64; WORDS], i: usize, shape: Shape) -> bool
    ensures { Decides (DaysAt words.now i shape) result }
{
    row(words, i, shape) && plain(words, i + 1) && nested(words, i)
}

fn interval(words: &[u64; WORDS], i: usize) -> bool
    ensures { Decides (IntervalAt words.now i) result }
{
    row(words, i, INTERVAL) && dosage(words, i + 1)
}

// A timed dosage at i, under a Cyclic of this unit, or under a Single.
fn timed(words: &[u64; WORDS], i: usize, unit: Option<u64>) -> bool
    ensures { Decides (TimedAt words.now i unit) result }
{
    if plain(words, i) {
        return true;
    }
    let Some(unit) = unit else {
        return false;
    };
    interval(words, i)
        || unit == 5 && days(words, i, WEEK_DAYS)
        || unit == 6 && days(words, i, DAYS_OF_MONTH)
}

fn single(words: &[u64; WORDS], i: usize) -> bool
    ensures { Decides (SingleAt words.now i) result }
{
    row(words, i, SINGLE) && timed(words, i + 1, None) && nested(words, i)
}

fn cyclic(words: &[u64; WORDS], i: usize) -> bool
    ensures { Decides (CyclicAt words.now i) result }
{
    row(words, i, CYCLIC) && timed(words, i + 1, Some(table_rows::a(words, i))) && nested(words, i)
}

// A detail without strings.
pub fn still(words: &[u64; WORDS], i: usize) -> bool
    ensures { Decides (StillAt words.now i) result }
{
    row(words, i, DAILY) || single(words, i) || cyclic(words, i)
}
