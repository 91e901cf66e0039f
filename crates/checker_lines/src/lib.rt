// The line that the check program prints of its input (document 01, "What the part does").
#![tactic(auto)]

pub mod console;

ghost use Rattle.std.specs.Prelude.{◌≡◌, List, [], ◌++◌, ℕ, ◌<◌, length};
ghost use Rattle.document.specs.Posology.{Posology};
ghost use Rattle.document.specs.Valid.{Valid, Fits, strings as strings_of};
ghost use Rattle.document.specs.Refusals.{number_of};
ghost use Rattle.document.specs.Table.{table_of};
ghost use Rattle.document.specs.Plain.{plain};
ghost use Rattle.document.specs.Write.{fitting, greatest_room};
ghost use Rattle.write_bytes.specs.Puts.{Puts};
ghost use Rattle.checker_lines.specs.Lines.{for_plan, refusal_line, written_line, line as line_in};

use document::refusal::Refusal;
use document::table::{TEXT_ROOM, Table};

const PLAN: u64 = 1;

fn put_refusal(out: &mut [u8], why: Refusal) -> usize
    ensures { why.1 < 1000000 → Puts out.old 0 (refusal_line (number_of why.0) why.1) [] result out.new }
{
    let Refusal(reason, place) = why;
    let at = write_bytes::put_all(out, 0, b"refused ");
    let at = write_numbers::put_whole(out, at, u64::from(reason.number()));
    let at = write_bytes::put(out, at, b' ');
    let at = write_numbers::put_whole(out, at, place as u64);
    write_bytes::put(out, at, b'\n')
}

fn put_plain(out: &mut [u8], t: Table, strings: &[u8]) -> usize
    ensures { (p : Posology) (behind : List ℕ) → Valid for_plan p → Fits greatest_room p → t ≡ table_of p → strings.now ≡ strings_of p ++ behind → Puts out.old 0 (written_line (fitting (length out.old) (plain p))) [] result out.new }
{
    match writer::write(t, strings, PLAN, out) {
        Ok(length) => write_bytes::put(out, length, b'\n'),
        Err(why) => put_refusal(out, why),
    }
}

// Puts the line into `out` as far as it reaches, and tells the line's length.
pub fn line(input: &[u8], out: &mut [u8]) -> usize
    ensures { Puts out.old 0 (line_in (length out.old) input.now) [] result out.new }
{
    let mut strings = [0u8; TEXT_ROOM];
    let r = posology::read(input, PLAN, &mut strings);
    match r.answer {
        Ok(()) => put_plain(out, r.table, &strings),
        Err(why) => put_refusal(out, why),
    }
}
