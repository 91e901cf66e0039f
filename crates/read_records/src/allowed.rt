// The types of timed dosages that may stand under each parent (document 01, "Objects").
ghost use Rattle.std.specs.Prelude.{◌≡◌, ◌<◌};
ghost use Rattle.document.specs.Date.{among};
ghost use Rattle.document.specs.Schema.{under_cyclic};
ghost use Rattle.read_records.specs.Under.{types_under};

// "Which kind may stand under which is one fixed table": a row a parent, 1 where the type 0 to 6 may stand under it.
// The parents are numbers, since a timed dosage is asked for under any number, and refused under one that is none of these.
pub const UNDER_SINGLE: usize = 0;

pub const UNDER_DAYS: usize = 1;

pub const UNDER_CYCLIC: usize = 2;

pub const UNDER_WEEKS: usize = 3;

pub const UNDER_MONTHS: usize = 4;

const SINGLE: [u8; 7] = [0, 1, 1, 1, 0, 0, 0];

const DAYS: [u8; 7] = [0, 1, 1, 1, 0, 0, 0];

const CYCLIC: [u8; 7] = [0, 1, 1, 1, 0, 0, 1];

const WEEKS: [u8; 7] = [0, 1, 1, 1, 1, 0, 1];

const MONTHS: [u8; 7] = [0, 1, 1, 1, 0, 1, 1];

pub fn is_allowed(parent: usize, kind: u64) -> bool
    ensures { result ≡ among kind (types_under parent) }
{
    if 6 < kind {
        return false;
    }
    let k = kind as usize;
    // one row is laid on the stack at a look, not all
    match parent {
        0 => SINGLE[k] == 1,
        1 => DAYS[k] == 1,
        2 => CYCLIC[k] == 1,
        3 => WEEKS[k] == 1,
        4 => MONTHS[k] == 1,
        _ => false,
    }
}

// The row of the types that may stand under Cyclic, by its unit: 5 is the week and 6 the month.
pub fn under_cyclic(unit: u64) -> usize
    ensures { (types_under result ≡ under_cyclic unit) × (result < 5) }
{
    match unit {
        5 => UNDER_WEEKS,
        6 => UNDER_MONTHS,
        _ => UNDER_CYCLIC,
    }
}
