// What a reading is told, and what it has taken so far.
ghost use Rattle.std.specs.Prelude.{◌≡◌, ◌-◌};
ghost use Rattle.document.specs.Told.{none_used, one_more};

use crate::table::RECORDS;

// The use, 1 for a plan and 3 for a prescription, and the room for strings.
#[derive(Clone, Copy)]
pub struct Terms {
    pub purpose: u64,
    pub room: usize,
}

// Records and text bytes. What else a reading notes will stand here.
#[derive(Clone, Copy)]
pub struct Used {
    pub records: usize,
    pub text: usize,
}

pub fn none_used() -> Used
    ensures { result ≡ none_used }
{
    Used {
        records: 0,
        text: 0,
    }
}

// A record is taken, where one is left.
pub fn one_more(used: Used) -> Used
    ensures { result ≡ one_more used }
{
    if RECORDS <= used.records {
        return used;
    }
    let mut u = used;
    u.records = used.records + 1;
    u
}

// What is left of the room.
pub fn room_left(terms: Terms, used: Used) -> usize
    ensures { result ≡ terms.room - used.text }
{
    if terms.room < used.text {
        return 0;
    }
    terms.room - used.text
}
