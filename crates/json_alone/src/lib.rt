// Whether a text is one object and nothing else (document 01, refusals 2 and 3).
#![tactic(auto)]

ghost use Rattle.json_grammar.specs.Walk.{one_object};
ghost use Rattle.json_walk.specs.Turn.{Tells};

use json_scan::byte;
use json_walk::Fault;

// The one object that all of the text is, blanks aside: the place behind it.
pub fn one_object(text: &[u8]) -> Result<usize, Fault>
    ensures { Tells text.now (one_object text.now) result }
{
    let end = json_walk::first_object(text)?;
    let behind = byte::blanks_end(text, end);
    if behind < text.len() {
        return Err(Fault::Broken(behind));
    }
    Ok(end)
}
