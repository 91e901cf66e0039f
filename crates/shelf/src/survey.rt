// Going over an area once: whether it is a shelf, and what the calls ask of it.
ghost use Rattle.std.specs.Prelude.{◌≡◌, ◌+◌, ◌≤◌};
ghost use Rattle.shelf_list.specs.Shelf.{entries_in};
ghost use Rattle.shelf.specs.Survey.{Passes, surveyed, with_record};

use crate::plain_text::is_plain;
use document::table::LONGEST_PLAIN;
use shelf_bytes::{HEAD, head_at, note, number_at, zeros_from};

const AREA: usize = 65535;

// Where a record begins, and how many bytes it takes.
#[derive(Clone, Copy)]
pub(crate) struct Place {
    pub from: usize,
    pub size: usize,
}

// Of the records: their bytes, how many they are, where the one of the number asked for stands, and the number at the position asked for, 0 past
// the last.
#[derive(Clone, Copy)]
pub(crate) struct Survey {
    pub used: usize,
    pub count: usize,
    pub found: Option<Place>,
    pub standing: u16,
}

// One record more, with its number and its bytes.
fn with_record(s: Survey, n: u16, size: usize, number: u64, position: u64) -> Survey
    requires { (s.used + size ≤ 65535) × (s.count ≤ 65535) }
    ensures { result ≡ with_record s n size number position }
{
    let here = Place { from: s.used, size };
    Survey {
        used: s.used + size,
        count: s.count + 1,
        found: if u64::from(n) == number {
            Some(here)
        } else {
            s.found
        },
        standing: if s.count as u64 == position {
            n
        } else {
            s.standing
        },
    }
}

// The bytes of the record at a place, whose number has not stood before and is noted.
#[tactic(auto, using(crate::proofs::RecordLaws::head_fits))]
fn record_at(
    area: &[u8],
    at: usize,
    set: &mut [u64],
    scratch: &mut [u8; LONGEST_PLAIN],
) -> Option<usize>
    ensures { Passes set.old area.now at result set.new }
{
    let size = head_at(area, at)?;
    if !note(set, u64::from(number_at(area, at + 2))) {
        return None;
    }
    is_plain(&area[at + HEAD..at + size], scratch).then_some(size)
}

// One pass, none where the area is no shelf: what stands behind the records is looked at where a record ends with a zero behind it.
pub(crate) fn go_over(
    area: &[u8],
    number: u64,
    position: u64,
    scratch: &mut [u8; LONGEST_PLAIN],
) -> Option<Survey>
    ensures { result ≡ surveyed number position (entries_in area.now) }
{
    if AREA < area.len() {
        return None;
    }
    let mut set = [0u64; 1024];
    let mut s = Survey {
        used: 0,
        count: 0,
        found: None,
        standing: 0,
    };
    let mut at = 0;
    while at < area.len() {
        if area[at] == 0 {
            return zeros_from(area, at).then_some(s);
        }
        let size = record_at(area, at, &mut set, scratch)?;
        s = with_record(s, number_at(area, at + 2), size, number, position);
        at += size;
    }
    Some(s)
}
