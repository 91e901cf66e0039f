// Names packed into numbers, letter by letter.
ghost use Rattle.std.specs.Prelude.{[]};
ghost use Rattle.read_names.specs.Names.{Packs};

use crate::taking::Takes;

// A name's first seven bytes in one number, a byte 1 before them, and its next seven in another; 0 there for a longer name.
// Beside them how many letters there are, up to 15.
#[derive(Clone, Copy)]
pub(crate) struct Packed {
    pub head: u64,
    pub tail: u64,
    pub letters: usize,
}

impl Packed {
    #[tactic(auto, using(crate::proofs::Packing::no_letter))]
    pub fn none() -> Packed
        ensures { Packs [] result }
    {
        Packed {
            head: 1,
            tail: 1,
            letters: 0,
        }
    }
}

impl Takes for Packed {
    ghost use Rattle.read_names.specs.Names.{PacksOn};
    ghost use Rattle.read_names.specs.Taken.{packs_none};

    ghost took = { PacksOn };

    ghost took_none = { packs_none };

    fn with(self, b: u8) -> Packed {
        if self.letters < 7 {
            return Packed {
                head: self.head % 0x100000000000000 * 256 + u64::from(b),
                tail: self.tail,
                letters: self.letters + 1,
            };
        }
        if self.letters < 14 {
            return Packed {
                head: self.head,
                tail: self.tail % 0x100000000000000 * 256 + u64::from(b),
                letters: self.letters + 1,
            };
        }
        Packed {
            head: self.head,
            tail: 0,
            letters: 15,
        }
    }

    // Of letters behind the fourteenth only that there are some is told.
    fn is_full(self) -> bool {
        self.letters == 15
    }
}
