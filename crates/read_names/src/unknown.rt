// The first member whose name is not known.
ghost use Rattle.std.specs.Prelude.{◌≡◌, true, drop};
ghost use Rattle.json_grammar.specs.Tree.{Place, Members, object};
ghost use Rattle.document.specs.Lookup.{unknown};
ghost use Rattle.document.specs.Visit.{entries_of};
ghost use Rattle.document.specs.At.{At};
ghost use Rattle.read_names.specs.Names.{members_in, Once, row_names, is_among, is_row, standing_of, Tells};

use crate::member;
use crate::names::Name;
use crate::slots::{Object, Slots};

fn is_among(known: &[Name], name: Option<Name>) -> bool
    ensures { result ≡ is_among name known.now }
{
    match name {
        Some(n) => known.contains(&n),
        None => false,
    }
}

fn first_unknown(text: &[u8], at: usize, known: &[Name]) -> Option<usize>
    ensures { is_row known.now ≡ true → Tells text.now (unknown (row_names known.now) (entries_of (members_in text.now (drop at text.now)))) result }
{
    let mut q = json_move::first_in(text, at);
    for _ in 0..text.len() {
        if json_move::at_end(text, q) {
            return None;
        }
        let m = member::named(text, q);
        if !is_among(known, m.name) {
            return Some(q);
        }
        q = json_move::next_after(text, m.value);
    }
    None
}

// How many of the names stand in the object.
fn standing(slots: &Slots, known: &[Name]) -> usize
    ensures { result ≡ standing_of slots.now known.now }
{
    known.iter().filter(|n| slots.at(**n).is_some()).count()
}

// Where every member's name is known, as most often, the members need not be walked again.
pub fn unknown_name(text: &[u8], at: usize, settled: &Object, known: &[Name]) -> Option<usize>
    ensures { is_row known.now ≡ true → (p : Place) (ms : Members) → At text.now at (object p ms) → Once text.now (entries_of ms) settled.now → Tells text.now (unknown (row_names known.now) (entries_of ms)) result }
{
    if standing(&settled.slots, known) == settled.members {
        return None;
    }
    first_unknown(text, at, known)
}
