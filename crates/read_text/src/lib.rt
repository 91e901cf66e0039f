// Which bytes are the text, before anything in it is read (document 01, "Answers by number": 17, 1, 2 and 3, and a run's last paragraph).
#![tactic(auto)]

ghost use Rattle.std.specs.Prelude.{◌≡◌, take};
ghost use Rattle.document.specs.Answer.{text_at_most};
ghost use Rattle.document.specs.declared.refusal.Reason.TheVariants.{NotOneObject};
ghost use Rattle.read_text.specs.Texts.{one_text, not_ended, first_text};

use document::refusal::{Reason, Refusal};
use document::table::Next;
use document::uses::is_use;
use json_scan::byte;
use json_walk::Fault;

const LONGEST: usize = 32768;

// A text is one object, or refused.
pub fn one_text(text: &[u8], purpose: u64) -> Result<(), Refusal>
    ensures { result ≡ one_text purpose text.now }
{
    if !is_use(purpose) {
        return Err(Refusal(Reason::WrongUse, 0));
    }
    if LONGEST < text.len() {
        return Err(Refusal(Reason::TooLong, LONGEST));
    }
    match json_alone::one_object(text) {
        Ok(_) => Ok(()),
        Err(Fault::Broken(p)) => Err(Refusal(Reason::NotOneObject, p)),
        Err(Fault::Deep(p)) => Err(Refusal(Reason::TooDeep, p)),
    }
}

// The first 32,768 bytes of a run, in which a text must end.
#[tactic(auto, using(std::proofs::lemmas::List::take_min))]
fn begun(run: &[u8]) -> &[u8]
    ensures { result.now ≡ take text_at_most run.now }
{
    &run[..LONGEST.min(run.len())]
}

// No text ends in the first 32,768 bytes, and they are walked up to p.
fn not_ended(run: &[u8], p: usize) -> Refusal
    ensures { Err result ≡ not_ended NotOneObject run.now p }
{
    if LONGEST < run.len() && LONGEST <= p {
        return Refusal(Reason::TooLong, LONGEST);
    }
    Refusal(Reason::NotOneObject, p)
}

// What a run begins with, or the refusal of its first text.
pub fn first_text(run: &[u8], purpose: u64) -> Result<Next, Refusal>
    ensures { result ≡ first_text purpose run.now }
{
    if !is_use(purpose) {
        return Err(Refusal(Reason::WrongUse, 0));
    }
    if run.len() <= byte::blanks_end(run, 0) {
        return Ok(Next::Blank { length: run.len() });
    }
    match json_walk::first_object(begun(run)) {
        Ok(end) => Ok(Next::Taken { end }),
        Err(Fault::Broken(p)) => Err(not_ended(run, p)),
        Err(Fault::Deep(p)) => Err(Refusal(Reason::TooDeep, p)),
    }
}
