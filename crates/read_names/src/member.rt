// A member of an object: which name it has, if any of document 01's, and where its value stands.
ghost use Rattle.std.specs.Prelude.{◌≡◌, drop};
ghost use Rattle.json_grammar.specs.Tree.{Moves};
ghost use Rattle.json_move.specs.Moving.{value_of};
ghost use Rattle.json_move.specs.Read.{decoded};
ghost use Rattle.read_names.specs.Names.{name_of};

use crate::names::{Name, name_of};
use crate::packed::Packed;
use crate::taking;

#[derive(Clone, Copy)]
pub(crate) struct Member {
    pub name: Option<Name>,
    pub value: usize,
}

// Names with escapes or letters beyond ASCII are rare.
#[cold]
fn named_decoded(text: &[u8], quote: usize) -> Member
    ensures { (result.name ≡ name_of (decoded (drop quote text.now))) × Moves value_of text.now quote result.value }
{
    Member {
        name: name_of(taking::decoded(Packed::none(), text, quote)),
        value: json_move::value_of(text, quote),
    }
}

// The member whose name's quote stands at `quote`.
pub(crate) fn named(text: &[u8], quote: usize) -> Member
    ensures { (result.name ≡ name_of (decoded (drop quote text.now))) × Moves value_of text.now quote result.value }
{
    match taking::plain(Packed::none(), text, quote) {
        Some((p, end)) => Member {
            name: name_of(p),
            value: json_move::behind_colon(text, end),
        },
        None => named_decoded(text, quote),
    }
}
