// The records of a detail without strings, by the bounds of their words (document 01, "The table" and "Objects").
ghost use Rattle.check_doses.specs.Shapes.{Decides, Holds};

// A word's bounds, both among what they hold: a RangeInclusive is not Copy, and is spent once its end is taken.
#[derive(Clone, Copy)]
pub struct Bounds {
    pub least: u64,
    pub most: u64,
}

impl Bounds {
    pub fn hold(self, word: u64) -> bool
        ensures { Decides (Holds self word) result }
    {
        self.least <= word && word <= self.most
    }
}

// A kind of record: its tag, and the bounds of its other words.
#[derive(Clone, Copy)]
pub struct Shape {
    pub tag: u64,
    pub below: Bounds,
    pub a: Bounds,
    pub b: Bounds,
    pub c: Bounds,
    pub d: Bounds,
}

pub const NOTHING: Bounds = Bounds { least: 0, most: 0 };

// One record below: a dosage of one record.
const ONE: Bounds = Bounds { least: 1, most: 1 };

const ANY_BELOW: Bounds = Bounds { least: 0, most: 63 };

pub const SOME_BELOW: Bounds = Bounds { least: 1, most: 63 };

const AMOUNT: Bounds = Bounds {
    least: 0,
    most: 999999999999,
};

const SOME_AMOUNT: Bounds = Bounds {
    least: 1,
    most: 999999999999,
};

pub const INTEGER: Bounds = Bounds {
    least: 1,
    most: 99999,
};

pub const UNIT: Bounds = Bounds { least: 1, most: 7 };

const SECOND: Bounds = Bounds {
    least: 0,
    most: 86399,
};

const SEGMENT: Bounds = Bounds { least: 1, most: 4 };

// Seven days of a week, or 28 of a month, as a set that is not empty.
const WEEK: Bounds = Bounds {
    least: 1,
    most: 127,
};

const MONTH: Bounds = Bounds {
    least: 1,
    most: 268435455,
};

// All but its tag is 0.
pub const BLANK: Shape = Shape {
    tag: 0,
    below: NOTHING,
    a: NOTHING,
    b: NOTHING,
    c: NOTHING,
    d: NOTHING,
};

pub(crate) const DAILY: Shape = Shape {
    tag: 1,
    a: AMOUNT,
    b: AMOUNT,
    c: AMOUNT,
    d: AMOUNT,
    ..BLANK
};

pub(crate) const SINGLE: Shape = Shape {
    tag: 3,
    below: SOME_BELOW,
    ..BLANK
};

pub(crate) const CYCLIC: Shape = Shape {
    tag: 4,
    below: SOME_BELOW,
    a: UNIT,
    b: INTEGER,
    c: INTEGER,
    ..BLANK
};

pub(crate) const DOSAGE_ONLY: Shape = Shape {
    tag: 6,
    below: ONE,
    ..BLANK
};

pub(crate) const TIMES: Shape = Shape {
    tag: 7,
    below: ANY_BELOW,
    ..BLANK
};

pub(crate) const DAY_SEGMENTS: Shape = Shape {
    tag: 8,
    below: ANY_BELOW,
    ..BLANK
};

pub(crate) const WEEK_DAYS: Shape = Shape {
    tag: 9,
    below: SOME_BELOW,
    a: WEEK,
    ..BLANK
};

pub(crate) const DAYS_OF_MONTH: Shape = Shape {
    tag: 10,
    below: SOME_BELOW,
    a: MONTH,
    ..BLANK
};

pub(crate) const INTERVAL: Shape = Shape {
    tag: 11,
    below: ONE,
    a: INTEGER,
    b: UNIT,
    ..BLANK
};

pub(crate) const SIMPLE: Shape = Shape {
    tag: 12,
    a: SOME_AMOUNT,
    ..BLANK
};

pub(crate) const FROM_TO: Shape = Shape {
    tag: 13,
    a: AMOUNT,
    b: AMOUNT,
    c: UNIT,
    d: INTEGER,
    ..BLANK
};

pub(crate) const RANGE: Shape = Shape {
    tag: 14,
    a: SOME_AMOUNT,
    b: AMOUNT,
    ..BLANK
};

pub(crate) const AT_TIME: Shape = Shape {
    tag: 17,
    below: ONE,
    a: SECOND,
    ..BLANK
};

pub(crate) const IN_SEGMENT: Shape = Shape {
    tag: 18,
    below: ONE,
    a: SEGMENT,
    ..BLANK
};
