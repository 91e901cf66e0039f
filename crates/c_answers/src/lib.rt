// What a call of the hospital side tells of an answer: the number that it returns, and the place (include/posology.h).
#![tactic(auto)]

ghost use Rattle.std.specs.Prelude.{ℕ, ◌≡◌};
ghost use Rattle.document.specs.Refusals.{number_of};
ghost use Rattle.c_answers.specs.Telling.{tells, told, told_refusal, next_values_by, length_values_by};

use document::refusal::Refusal;
use document::table::Next;

const ONLY_BLANKS: u64 = 255;

#[derive(Clone, Copy)]
pub struct Told {
    pub number: u64,
    pub place: u64,
}

fn tells(number: u64, place: usize) -> Told
    ensures { result ≡ tells number place }
{
    Told {
        number,
        place: place as u64,
    }
}

pub fn told_refusal(why: Refusal) -> Told
    ensures { result ≡ told_refusal why }
{
    let Refusal(reason, place) = why;
    tells(u64::from(reason.number()), place)
}

// A refusal that a call can tell.
pub trait Refuses: Copy {
    ghost number: { Self → ℕ };

    ghost place: { Self → ℕ };

    fn told(self) -> Told
        ensures { result ≡ tells (number self) (place self) };
}

impl Refuses for Refusal {
    ghost number = { λ why. number_of why.0 };

    ghost place = { λ why. why.1 };

    fn told(self) -> Told {
        told_refusal(self)
    }
}

// A refusal by its number, whichever that is.
#[derive(Clone, Copy)]
pub struct Numbered {
    pub number: u8,
    pub place: usize,
}

impl Refuses for Numbered {
    ghost number = { λ why. why.number };

    ghost place = { λ why. why.place };

    fn told(self) -> Told {
        tells(u64::from(self.number), self.place)
    }
}

pub fn told_next<R: Refuses>(answer: Result<Next, R>) -> Told
    ensures { result ≡ told (next_values_by R.number R.place answer) }
{
    match answer {
        Ok(Next::Taken { end }) => tells(0, end),
        Ok(Next::Blank { length }) => tells(ONLY_BLANKS, length),
        Err(why) => why.told(),
    }
}

pub fn told_writing<R: Refuses>(written: Result<usize, R>) -> Told
    ensures { result ≡ told (length_values_by R.number R.place written) }
{
    match written {
        Ok(length) => tells(0, length),
        Err(refusal) => refusal.told(),
    }
}
