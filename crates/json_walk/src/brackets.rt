// The brackets that are open at a place of a text.
ghost use Rattle.std.specs.Prelude.{◌≡◌, [], ◌∷◌, ◌-◌, ◌/◌, ◌^◌, ◌<◌, ◌≤◌, MatchOption};
ghost use Rattle.json_walk.specs.Frames.{frames, frame_of, closer_of};

// The bracket of a list or of an object.
#[derive(Clone, Copy)]
pub enum Bracket {
    Square,
    Curly,
}

impl Bracket {
    // The byte that closes it.
    pub fn closer(self) -> u8
        ensures { result ≡ closer_of self }
    {
        match self {
            Bracket::Square => b']',
            Bracket::Curly => b'}',
        }
    }
}

// Document 01, row 3: at most so many brackets are open at once.
const LEVELS: usize = 20;

// The brackets that are open: so many, and a bit for each, 1 for a curly one, the innermost lowest.
#[derive(Clone, Copy)]
pub struct Brackets {
    pub depth: usize,
    pub kinds: u64,
    ghost few: { depth ≤ 20 },
    ghost small: { kinds < 2 ^ depth },
}

impl Brackets {
    // The text's own brace.
    pub fn one() -> Brackets
        ensures { (result.depth ≡ 1) × (result.kinds ≡ 1) }
    {
        Brackets { depth: 1, kinds: 1 }
    }

    // One more, if it may be open.
    pub fn opened(self, bracket: Bracket) -> Option<Brackets>
        ensures { MatchOption result (20 ≤ self.depth) (λ b. (self.depth < 20) × (frames b.depth b.kinds ≡ frame_of bracket ∷ frames self.depth self.kinds)) }
    {
        if LEVELS <= self.depth {
            return None;
        }
        let bit = match bracket {
            Bracket::Square => 0,
            Bracket::Curly => 1,
        };
        Some(Brackets {
            depth: self.depth + 1,
            kinds: self.kinds * 2 + bit,
        })
    }

    // The innermost, if one is open.
    pub fn innermost(self) -> Option<Bracket>
        ensures { MatchOption result (frames self.depth self.kinds ≡ []) (λ b. frames self.depth self.kinds ≡ frame_of b ∷ frames (self.depth - 1) (self.kinds / 2)) }
    {
        if self.depth == 0 {
            return None;
        }
        if self.kinds % 2 == 0 {
            Some(Bracket::Square)
        } else {
            Some(Bracket::Curly)
        }
    }

    // Without the innermost.
    pub(crate) fn closed(self) -> Brackets
        requires { 0 < self.depth }
        ensures { (result.depth ≡ self.depth - 1) × (result.kinds ≡ self.kinds / 2) }
    {
        Brackets {
            depth: self.depth - 1,
            kinds: self.kinds / 2,
        }
    }
}
