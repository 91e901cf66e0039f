// "Removing closes the gap, so freed room serves the next put."
ghost use Rattle.shelf_list.specs.Calls.{remove, Serves};
ghost use Rattle.shelf.specs.Answers.{remove_answer};

use crate::answers::record_of;
use document::refusal::Refusal;
use shelf_bytes::close_gap;

pub fn remove(area: &mut [u8], number: u64) -> Result<(), Refusal>
    ensures { Serves (remove number) area.old (remove_answer result) area.new }
{
    let record = record_of(area, number)?;
    close_gap(area, record.from, record.size);
    Ok(())
}
