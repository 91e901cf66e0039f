// One walk over an object's members: where each known one's value stands, or which name stands twice.
ghost use Rattle.std.specs.Prelude.{◌≡◌, drop};
ghost use Rattle.json_move.specs.Moving.{first_in};
ghost use Rattle.json_move.specs.Read.{decoded};
ghost use Rattle.document.specs.Lookup.{has};
ghost use Rattle.read_names.specs.Names.{names_from, Settles};

use crate::slots::{Object, Slots, Twice};
use crate::table::{Found, TABLE};
use crate::{member, table};

// Whether the name at `quote` is that of one of the first members of the object at `at`.
fn stood_before(text: &[u8], at: usize, members: usize, quote: usize) -> bool
    ensures { result ≡ has (decoded (drop quote text.now)) (names_from members (first_in (drop at text.now))) }
{
    let mut q = json_move::first_in(text, at);
    for _ in 0..members {
        if json_same::names_same(text, quote, q) {
            return true;
        }
        q = json_move::next_after(text, json_move::value_of(text, q));
    }
    false
}

// The members of an object that has an unknown name. It is refused in any case, with 6 where a name stands twice and else with 5
// (document 01). There may be thousands of names, so each is looked up in a table, and not compared with all before it.
fn settle_many(text: &[u8], at: usize) -> Result<Object, Twice>
    ensures { Settles text.now at result }
{
    let mut object = Object {
        members: 0,
        slots: Slots::none(),
    };
    let mut table = [0u16; TABLE];
    let seed = table::seed_of(text);
    let mut q = json_move::first_in(text, at);
    for _ in 0..text.len() {
        if json_move::at_end(text, q) {
            return Ok(object);
        }
        match table::look_up(text, q, seed, &table) {
            Found::Stands => return Err(Twice(q)),
            Found::Free(i) => table[i] = q as u16 + 1,
            Found::Nowhere if stood_before(text, at, object.members, q) => return Err(Twice(q)),
            Found::Nowhere => {}
        }
        let m = member::named(text, q);
        if let Some(name) = m.name {
            object.slots.put(name, m.value);
        }
        q = json_move::next_after(text, m.value);
        object.members += 1;
    }
    Ok(object)
}

// The members of the object at `at`. Each takes at least a byte, so the length is turns enough. An object whose names are known,
// as most often, pays for no table, nor its frame for the room: what is called from two places is compiled apart.
pub fn settle(text: &[u8], at: usize) -> Result<Object, Twice>
    ensures { Settles text.now at result }
{
    // filled where it stands, since its slots are long to copy
    let mut object = Object {
        members: 0,
        slots: Slots::none(),
    };
    let mut q = json_move::first_in(text, at);
    for _ in 0..text.len() {
        if json_move::at_end(text, q) {
            return Ok(object);
        }
        let m = member::named(text, q);
        let Some(name) = m.name else {
            return settle_many(text, at);
        };
        if object.slots.at(name).is_some() {
            return Err(Twice(q));
        }
        object.slots.put(name, m.value);
        q = json_move::next_after(text, m.value);
        object.members += 1;
    }
    settle_many(text, at)
}
