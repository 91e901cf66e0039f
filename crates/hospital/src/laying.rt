// The lent area: its size, and what was read laid into it without a table between them.
ghost use Rattle.std.specs.Prelude.{◌≡◌, ◌≢◌, length, IfOk, IfErr};
ghost use Rattle.document.specs.Refusals.{refusal};
ghost use Rattle.document.specs.declared.refusal.Reason.TheVariants.{BufferTooShort};
ghost use Rattle.c_area.specs.Area.{area_of, area_bytes};
ghost use Rattle.read_table.specs.Built.{built};

use document::refusal::{Reason, Refusal};
use document::table::WORDS;
use read_records::read::HeadRead;

// "An area of another size is 19 with that size as the place, before all else"
pub(crate) fn sized(table: &[u8]) -> Result<(), Refusal>
    ensures right { IfOk result λ _. length table.now ≡ area_bytes }
    ensures other { IfErr result λ r. (length table.now ≢ area_bytes) × (r ≡ refusal BufferTooShort area_bytes) }
{
    if table.len() != c_area::AREA {
        return Err(Refusal(Reason::BufferTooShort, c_area::AREA));
    }
    Ok(())
}

pub(crate) fn lay_read(head: HeadRead, rows: &mut [u64; WORDS], table: &mut [u8])
    requires { length table.old ≡ area_bytes }
    ensures { table.new ≡ area_of (built head rows.old) }
{
    let count = head.used.records;
    table_words::tidy(rows, count);
    c_area::lay_words(
        read_table::head_of(head),
        table_kinds::at_most(count),
        head.used.text,
        rows,
        table,
    );
}
