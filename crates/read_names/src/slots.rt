// Where the value of each name stands in an object.
ghost use Rattle.std.specs.Prelude.{◌≡◌, replicate, slice_set};
ghost use Rattle.read_names.specs.Names.{number_of, place_of};

use crate::names::{NAMES, Name};

// By the names' numbers, 0 where there is none: no value stands there, and Options would take twice the room in the frames.
#[derive(Clone, Copy)]
pub struct Slots {
    places: [usize; NAMES],
}

impl Slots {
    // Of no name.
    pub fn none() -> Slots
        ensures { result.places ≡ replicate 33 0 }
    {
        Slots { places: [0; NAMES] }
    }

    pub fn at(&self, name: Name) -> Option<usize>
        ensures { result ≡ place_of self.now name }
    {
        match self.places[name as usize] {
            0 => None,
            place => Some(place),
        }
    }

    // Of a name whose value stands at `place`, or nowhere where that is 0.
    pub fn put(&mut self, name: Name, place: usize)
        ensures { self.new.places ≡ slice_set self.old.places (number_of name) place }
    {
        self.places[name as usize] = place;
    }
}

// An object's members: how many there are, and where each known one's value stands.
#[derive(Clone, Copy)]
pub struct Object {
    pub members: usize,
    pub slots: Slots,
}

// A name stands twice: where it does for the second time.
#[derive(Clone, Copy, Debug, PartialEq, Eq)]
pub struct Twice(pub usize);
