// "a text that is no plain text for use 3": read, put again, and compared.
ghost use Rattle.std.specs.Prelude.{◌≡◌};
ghost use Rattle.shelf_list.specs.Shelf.{is_plain};

use document::table::LONGEST_PLAIN;

// "read for use 3, which takes both uses"
pub const BOTH_USES: u64 = 3;

// A text that is longer than every plain text is not read.
pub(crate) fn is_plain(text: &[u8], scratch: &mut [u8; LONGEST_PLAIN]) -> bool
    ensures { result ≡ is_plain text.now }
{
    if LONGEST_PLAIN < text.len() {
        return false;
    }
    match rewriter::rewrite(text, BOTH_USES, scratch) {
        Ok(n) => &scratch[..n] == text,
        Err(_) => false,
    }
}
