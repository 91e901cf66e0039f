// An object as far as its type: names twice (6), then its t (7, 4, 8, 9); and names that are none of it (5).
ghost use Rattle.std.specs.Prelude.{◌≡◌, true, ◌<◌};
ghost use Rattle.json_grammar.specs.Tree.{Place, Members, object};
ghost use Rattle.document.specs.Lookup.{unknown};
ghost use Rattle.document.specs.Visit.{entries_of};
ghost use Rattle.document.specs.At.{At};
ghost use Rattle.read_names.specs.Names.{Once, is_row, row_names};
ghost use Rattle.read_type.specs.Opens.{OpensTyped, OpensPlain, OpensStill, KnowsAll, type_slot};

use document::refusal::{Reason, Refusal};
use document::terms::Used;
use read_fields::field;
use read_names::{Name, Object, Twice};

// An object's type, with what is taken behind it.
#[derive(Clone, Copy)]
pub struct Opened {
    pub kind: u64,
    pub used: Used,
    pub object: Object,
}

// An object without a type.
pub fn open_plain(text: &[u8], at: usize) -> Result<Object, Refusal>
    ensures { OpensPlain text.now at result }
{
    match read_names::settle(text, at) {
        Ok(object) => Ok(object),
        Err(Twice(place)) => Err(Refusal(Reason::NameTwice, place)),
    }
}

// An object of a family with so many types. One of a family without types is opened by `open_plain`.
pub fn open_typed(text: &[u8], at: usize, types: u64, used: Used) -> Result<Opened, Refusal>
    ensures opens_typed { 0 < types → OpensTyped types text.now at used result }
    ensures opens_still { OpensStill used result }
{
    let object = open_plain(text, at)?;
    let t = field::integer_field(text, at, object.slots.at(Name::T), 1, types, used)?;
    Ok(Opened {
        kind: t.value,
        used: t.used,
        object,
    })
}

// Where the value of its t stands, 0 where there is none.
pub fn type_place(o: &Object) -> usize
    ensures { result ≡ type_slot o.now }
{
    o.slots.at(Name::T).unwrap_or(0)
}

// Names that are none of the object's: 5.
pub fn knows_all(text: &[u8], at: usize, settled: &Object, known: &[Name]) -> Result<(), Refusal>
    ensures { is_row known.now ≡ true → (p : Place) (ms : Members) → At text.now at (object p ms) → Once text.now (entries_of ms) settled.now → KnowsAll text.now (unknown (row_names known.now) (entries_of ms)) result }
{
    match read_names::unknown_name(text, at, settled, known) {
        Some(quote) => Err(Refusal(Reason::UnknownName, quote)),
        None => Ok(()),
    }
}
