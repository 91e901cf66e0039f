// The table (document 01, "The table"), and what reading answers.
use crate::refusal::Refusal;

pub const RECORDS: usize = 64;

// A record's words: its tag, the records below it, four values.
pub const WIDTH: usize = 6;

pub const WORDS: usize = RECORDS * WIDTH;

// Text room is the buffer's length or this, the smaller (document 01, "The table").
pub const TEXT_ROOM: usize = 2048;

// No plain text is longer (document 02, Wish 10).
pub const LONGEST_PLAIN: usize = 20736;

// The greatest meal code (document 01, "Objects": "relMeal? 1-6"); `meal_codes` in specs/Schema.antt.
pub const MEAL_CODES: u8 = 6;

// A string's bytes in the text buffer; both are 0 where it is absent.
#[derive(Clone, Copy)]
pub struct Text {
    pub start: usize,
    pub len: usize,
}

// The zone is in minutes, east of Greenwich unless west is set.
#[derive(Clone, Copy)]
pub enum Date {
    Absent,
    Bare {
        year: u16,
        month: u8,
        day: u8,
    },
    Moment {
        year: u16,
        month: u8,
        day: u8,
        second: u32,
        west: bool,
        zone: u16,
    },
}

// Amounts are in millionths.
#[derive(Clone, Copy)]
pub enum Dosage {
    Simple {
        amount: u64,
    },
    FromTo {
        from: u64,
        to: u64,
        unit: u8,
        duration: u32,
    },
    Range {
        min: u64,
        max: u64,
    },
}

// Days of a set are bits: day 1 is bit 0.
#[derive(Clone, Copy)]
pub enum Kind {
    None,
    Daily {
        morning: u64,
        noon: u64,
        evening: u64,
        night: u64,
    },
    FreeText {
        text: Text,
    },
    Single,
    Cyclic {
        unit: u8,
        duration: u32,
        per_cycle: u32,
    },
    Sequence,
    DosageOnly,
    Times,
    DaySegments,
    WeekDays {
        days: u32,
    },
    DaysOfMonth {
        days: u32,
    },
    Interval {
        duration: u32,
        unit: u8,
    },
    Dosage {
        dosage: Dosage,
    },
    PosologySequence {
        duration: u32,
        unit: u8,
    },
    Pause {
        duration: u32,
        unit: u8,
    },
    AtTime {
        second: u32,
    },
    InSegment {
        segment: u8,
    },
}

// below: the records below this one, at every depth.
#[derive(Clone, Copy)]
pub struct Record {
    pub kind: Kind,
    pub below: usize,
}

// An absent meal code is 0.
#[derive(Clone, Copy)]
pub struct Head {
    pub from: Date,
    pub to: Date,
    pub reserve: bool,
    pub meal: u8,
    pub unit: Text,
    pub instructions: Text,
    pub roa: Text,
    pub moa: Text,
}

#[derive(Clone, Copy)]
pub struct Table {
    pub head: Head,
    pub count: usize,
    pub text: usize,
    pub records: [Record; RECORDS],
}

// A posology was read into the table, or is refused, with an empty table beside it.
#[derive(Clone, Copy)]
pub struct Reading {
    pub answer: Result<(), Refusal>,
    pub table: Table,
}

// What a run begins with: a posology, with the place behind its last byte; or only blanks remain.
#[derive(Clone, Copy)]
pub enum Next {
    Taken { end: usize },
    Blank { length: usize },
}

#[derive(Clone, Copy)]
pub struct NextReading {
    pub answer: Result<Next, Refusal>,
    pub table: Table,
}

// The head's fields that have text.
#[derive(Clone, Copy)]
pub enum HeadText {
    Unit,
    Instructions,
    Roa,
    Moa,
}
