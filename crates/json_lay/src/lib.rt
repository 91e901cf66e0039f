// Strings of a walked text: their decoded bytes counted, and laid into a lent buffer.
#![tactic(auto)]

ghost use Rattle.std.specs.Prelude.{◌≡◌, ◌+◌, ◌<◌, ◌≤◌, length, drop};
ghost use Rattle.std.proofs.lemmas.List.Edits.{sets};
ghost use Rattle.json_move.specs.Read.{decoded};
ghost use Rattle.json_decode.specs.Bytes.{ahead};
ghost use Rattle.json_lay.specs.Strings.{laid, buffered};

use json_decode::{Piece, Pieces};

fn length_of(pieces: Pieces<'_>) -> usize
    requires { length (ahead pieces) < 0x10000000000000000 }
    ensures { result ≡ length (ahead pieces.entry) }
{
    let mut n = 0;
    for piece in pieces {
        n += piece.len();
    }
    n
}

// The number of decoded bytes of the string whose quote stands at `quote`.
#[tactic(auto, using(json_decode::proofs::Lengths::decoded_short))]
pub fn decoded_length(text: &[u8], quote: usize) -> usize
    ensures { result ≡ length (decoded (drop quote text.now)) }
{
    length_of(Pieces::of(text, quote))
}

// Lays some bytes into the buffer from `to` on. Most escapes stand for one, which needs no loop.
#[inline(always)]
fn put(bytes: &[u8], buffer: &mut [u8], to: usize)
    requires { to + length bytes.now ≤ length buffer.old }
    ensures { buffer.new ≡ sets buffer.old to bytes.now }
{
    if let [b] = bytes {
        buffer[to] = *b;
        return;
    }
    for i in 0..bytes.len() {
        buffer[to + i] = bytes[i];
    }
}

// Lays the bytes into the buffer from `to` on, which has room for them: the place behind them.
fn copy(pieces: Pieces<'_>, buffer: &mut [u8], to: usize) -> usize
    requires { to + length (ahead pieces) ≤ length buffer.old }
    ensures value { result ≡ to + length (ahead pieces.entry) }
    ensures buffer_after { buffer.new ≡ sets buffer.old to (ahead pieces.entry) }
{
    let mut k = to;
    for piece in pieces {
        match piece {
            Piece::Spelled(run) => {
                put(run, buffer, k);
                k += run.len();
            }
            Piece::Decoded(out) => {
                let bytes = out.as_slice();
                put(bytes, buffer, k);
                k += bytes.len();
            }
        }
    }
    k
}

// Lays the decoded bytes of the string whose quote stands at `quote` into the buffer from `to` on, where they have room: the place behind them.
#[tactic(auto, using(json_decode::proofs::Lengths::decoded_short))]
pub fn lay(text: &[u8], quote: usize, buffer: &mut [u8], to: usize) -> Option<usize>
    ensures value { result ≡ laid buffer.old to (decoded (drop quote text.now)) }
    ensures buffer_after { buffer.new ≡ buffered buffer.old to (decoded (drop quote text.now)) }
{
    let pieces = Pieces::of(text, quote);
    let n = length_of(pieces);
    if buffer.len() < to || buffer.len() - to < n {
        return None;
    }
    Some(copy(pieces, buffer, to))
}
