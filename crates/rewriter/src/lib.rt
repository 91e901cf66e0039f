// A text read and put as its plain text, without a table between them.
#![tactic(auto)]

ghost use Rattle.rewriter.specs.Rewriting.{Rewrites};

use document::refusal::Refusal;
use document::table::{LONGEST_PLAIN, TEXT_ROOM, WORDS};

// What is read is valid and fits, so that neither 18 nor 19 can come of writing it.
pub fn rewrite(text: &[u8], purpose: u64, out: &mut [u8; LONGEST_PLAIN]) -> Result<usize, Refusal>
    ensures { Rewrites purpose text.now out.old result out.new }
{
    let mut strings = [0u8; TEXT_ROOM];
    let mut rows = [0u64; WORDS];
    let h = posology::read_words(text, purpose, &mut strings, &mut rows)?;
    table_words::tidy(&mut rows, h.used.records);
    let n = write_posology::put_posology(out, 0, read_table::head_of(h), &rows, 0, &strings);
    Ok(n)
}
