// A table of names by their hashes.
ghost use Rattle.std.specs.Prelude.{◌≡◌, ℕ, ◌%◌, length, drop};
ghost use Rattle.json_move.specs.Read.{decoded};
ghost use Rattle.read_names.specs.Names.{hash_of, seed_of, first_slot, Sought};

use crate::taking;
use crate::taking::Takes;

// The slots: 0 where there is none, else the name's place and one more, in the two bytes of a slot, since there are many in a frame.
pub(crate) const TABLE: usize = 8192;

// A place from here on has no room in a slot. Document 01's texts are at most half as long, though the run that one begins may be longer.
const PLACES: usize = 65535;

// A hash of two halves, with the seed that it goes by.
#[derive(Clone, Copy)]
pub(crate) struct Hash {
    pub seed: u64,
    pub hash: u64,
}

impl Takes for Hash {
    ghost use Rattle.read_names.specs.Names.{HashesOn};
    ghost use Rattle.read_names.specs.Taken.{hashes_none};

    ghost took = { HashesOn };

    ghost took_none = { hashes_none };

    // The low half is the middle of a product, so that names which differ in a digit or two do not start side by side.
    // The factor depends on the seed and on what came before: were it one for all, names that meet under one seed would often meet under another.
    #[tactic(auto, using(crate::proofs::Hashing::hash_more), unfolding(crate::specs::Names::hash_on))]
    fn with(self, b: u8) -> Hash {
        let high = self.hash / 0x100000000;
        let factor = 0x80000000 + (self.seed % 0x100000000 + high) % 0x40000000;
        let low = (self.hash % 0x100000000 + u64::from(b) + 1) * factor / 0x10000 % 0x100000000;
        Hash {
            seed: self.seed,
            hash: (high + low + self.seed / 0x100000000) % 0x100000000 * 0x100000000 + low,
        }
    }

    fn is_full(self) -> bool {
        false
    }
}

impl Hash {
    fn none(seed: u64) -> Hash
        ensures seed { result.seed ≡ seed }
        ensures hash { result.hash ≡ 0 }
    {
        Hash { seed, hash: 0 }
    }
}

// A text's hash. What lies behind the table's places is left out.
fn hash_of(text: &[u8], seed: u64) -> u64
    ensures { result ≡ hash_of seed text.now }
{
    taking::all(Hash::none(seed), &text[..text.len().min(PLACES)]).hash
}

// The seed of the texts' own seeds: any number whose bits are mixed would do, as these of the golden ratio.
const GOLDEN: u64 = 0x9E3779B97F4A7C15;

// A text's own seed, so that names which meet in one slot have to be found anew for every text. It goes over the text twice, the second time
// by what the first came to: else a text could be given the seed that its names were found for, from both its ends at once.
#[tactic(auto, unfolding(crate::specs::Names::seed_of))]
pub(crate) fn seed_of(text: &[u8]) -> u64
    ensures { result ≡ seed_of text.now }
{
    hash_of(text, hash_of(text, GOLDEN))
}

// Where the search for a name starts. The last slots are no start, so that few searches reach the end.
#[tactic(auto, unfolding(crate::specs::Names::first_slot))]
fn first_slot(text: &[u8], quote: usize, seed: u64) -> usize
    ensures { result ≡ first_slot seed (decoded (drop quote text.now)) }
{
    let start = Hash::none(seed);
    let h = match taking::plain(start, text, quote) {
        Some((h, _)) => h,
        None => taking::decoded(start, text, quote),
    };
    (h.hash % 8053) as usize
}

// Where the search for a name ends: at a slot that has it, at a free one, or where none is free behind its start or its place has no room in one.
#[derive(Clone, Copy)]
pub(crate) enum Found {
    Stands,
    Free(usize),
    Nowhere,
}

#[tactic(auto, using(crate::proofs::Searching::search_found, crate::proofs::Searching::search_on))]
pub(crate) fn look_up(text: &[u8], quote: usize, seed: u64, table: &[u16; TABLE]) -> Found
    ensures { Sought seed text.now quote table.now result }
{
    if PLACES <= quote {
        return Found::Nowhere;
    }
    for i in first_slot(text, quote, seed)..TABLE {
        let Some(place) = table[i].checked_sub(1) else {
            return Found::Free(i);
        };
        if json_same::names_same(text, quote, usize::from(place)) {
            return Found::Stands;
        }
    }
    Found::Nowhere
}
