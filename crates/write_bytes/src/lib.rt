// Bytes put into a lent buffer one behind the other, as far as it reaches:
// the place behind them is told all the same, so that a text can be measured without room.
#![tactic(auto)]

ghost use Rattle.std.specs.Prelude.{◌≡◌, true, List, ◌∷◌, ◌++◌, ℕ, ◌+◌, ◌<◌, ◌≤◌, length, take, slice_index};
ghost use Rattle.std.proofs.lemmas.List.Edits.{sets};
ghost use Rattle.write_bytes.specs.Plain.{is_plain};
ghost use Rattle.write_bytes.specs.Puts.{Puts, Lays};

// A lent buffer and the place behind what stands in it, whether the buffer reaches that far or not.
// Methods read the place once: a compiler does not know that a byte which is stored is not the place.
#[derive(Drop)]
pub struct Output<'a> {
    buffer: &'a mut [u8],
    at: usize,
}

impl<'a> Output<'a> {
    pub fn new(buffer: &'a mut [u8], at: usize) -> Output<'a>
        ensures same_buffer { result.buffer.ghost_name ≡ buffer.entry.ghost_name }
        ensures value { (result.buffer.now ≡ buffer.old) × (result.at ≡ at) }
    {
        Output { buffer, at }
    }

    pub fn end(&self) -> usize
        ensures { result ≡ self.now.at }
    {
        self.at
    }

    pub fn put(&mut self, b: u8)
        ensures { (k : List ℕ) → Lays self.old (b ∷ k) k self.new }
    {
        let at = self.at;
        if at < self.buffer.len() {
            self.buffer[at] = b;
        }
        self.at = at.saturating_add(1);
    }

    // Two bytes at once: with room for both the place is read and kept once.
    pub fn put_pair(&mut self, first: u8, second: u8)
        ensures { (k : List ℕ) → Lays self.old (first ∷ second ∷ k) k self.new }
    {
        let at = self.at;
        if self.buffer.len() <= at {
            self.at = at.saturating_add(2);
        } else if 1 < self.buffer.len() - at {
            self.buffer[at] = first;
            self.buffer[at + 1] = second;
            self.at = at + 2;
        } else {
            self.put(first);
            self.put(second);
        }
    }

    // Puts the bytes in front that stand for themselves in a string, and tells how many they are: no more than there is
    // room for, where there is room.
    pub fn put_plain(&mut self, bytes: &[u8]) -> usize
        ensures within { result ≤ length bytes.now }
        ensures first { 0 < length bytes.now → is_plain (slice_index bytes.now 0) ≡ true → 0 < result }
        ensures plain { (i : ℕ) → i < result → is_plain (slice_index bytes.now i) ≡ true }
        ensures laid { (k : List ℕ) → Lays self.old (take result bytes.now ++ k) k self.new }
    {
        let at = self.at;
        if at < self.buffer.len() {
            let n = copy_plain(self.buffer, at, bytes);
            self.at = at + n;
            return n;
        }
        let n = plain_end(bytes);
        self.at = at.saturating_add(n);
        n
    }

    // Where the buffer has room for all of them, a processor stores many at once.
    pub fn put_all(&mut self, bytes: &[u8])
        ensures { (k : List ℕ) → Lays self.old (bytes.now ++ k) k self.new }
    {
        let at = self.at;
        if at < self.buffer.len() && bytes.len() <= self.buffer.len() - at {
            copy(&mut self.buffer[at..at + bytes.len()], bytes);
            self.at = at + bytes.len();
        } else {
            self.put_front(bytes);
        }
    }

    // Those that the buffer reaches. Not in line, so that what calls `put_all` stays small.
    #[inline(never)]
    fn put_front(&mut self, bytes: &[u8])
        requires { self.old.at < length self.old.buffer.now → length self.old.buffer.now ≤ self.old.at + length bytes.now }
        ensures { (k : List ℕ) → Lays self.old (bytes.now ++ k) k self.new }
    {
        let at = self.at;
        if at < self.buffer.len() {
            let room = self.buffer.len() - at;
            copy(&mut self.buffer[at..], &bytes[..room]);
        }
        self.at = at.saturating_add(bytes.len());
    }
}

// Bytes over as many others. This is a loop, since `copy_from_slice` would call memmove of the C library.
fn copy(to: &mut [u8], from: &[u8])
    requires { length to.old ≡ length from.now }
    ensures { to.new ≡ from.now }
{
    for i in 0..from.len() {
        to[i] = from[i];
    }
}

// Whether a byte stands for itself in a string of JSON.
pub fn is_plain(b: u8) -> bool
    ensures { result ≡ is_plain b }
{
    (b' ' <= b) & (b != b'"') & (b != b'\\')
}

fn plain_end(bytes: &[u8]) -> usize
    ensures within { result ≤ length bytes.now }
    ensures first { 0 < length bytes.now → is_plain (slice_index bytes.now 0) ≡ true → 0 < result }
    ensures plain { (i : ℕ) → i < result → is_plain (slice_index bytes.now i) ≡ true }
{
    for i in 0..bytes.len() {
        if !is_plain(bytes[i]) {
            return i;
        }
    }
    bytes.len()
}

// Such bytes in front are looked for and copied in one pass: there are seldom many in a row.
fn copy_plain(out: &mut [u8], at: usize, bytes: &[u8]) -> usize
    requires { at < length out.old }
    ensures within { (result ≤ length bytes.now) × (at + result ≤ length out.old) }
    ensures first { 0 < length bytes.now → is_plain (slice_index bytes.now 0) ≡ true → 0 < result }
    ensures plain { (i : ℕ) → i < result → is_plain (slice_index bytes.now i) ≡ true }
    ensures stored { out.new ≡ sets out.old at (take result bytes.now) }
{
    let most = bytes.len().min(out.len() - at);
    for i in 0..most {
        let b = bytes[i];
        if !is_plain(b) {
            return i;
        }
        out[at + i] = b;
    }
    most
}

pub fn put(out: &mut [u8], at: usize, b: u8) -> usize
    ensures { (k : List ℕ) → Puts out.old at (b ∷ k) k result out.new }
{
    let mut output = Output::new(out, at);
    output.put(b);
    output.end()
}

pub fn put_all(out: &mut [u8], from: usize, bytes: &[u8]) -> usize
    ensures { (k : List ℕ) → Puts out.old from (bytes.now ++ k) k result out.new }
{
    let mut output = Output::new(out, from);
    output.put_all(bytes);
    output.end()
}
