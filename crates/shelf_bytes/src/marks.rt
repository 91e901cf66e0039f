// Which numbers have stood, as bits: one look a record settles "a number .. twice".
ghost use Rattle.shelf_bytes.specs.Marks.{Notes};

// Notes a number, and tells whether it is new. A sum, and not an or: the bit is known not to be set.
pub fn note(set: &mut [u64], n: u64) -> bool
    ensures { Notes set.old n result set.new }
{
    let word = (n / 64) as usize;
    let bit: u64 = 1 << (n % 64);
    if set.len() <= word || set[word] & bit != 0 {
        return false;
    }
    set[word] += bit;
    true
}
