// What is told of an answer. C interface: the place is stored, and the number returned.
ghost use Rattle.std.specs.Prelude.{◌≡◌};

use c_answers::Told;

pub(crate) fn tell(told: Told, place: &mut u64) -> u64
    ensures number { result ≡ told.number }
    ensures place { place.new ≡ told.place }
{
    *place = told.place;
    told.number
}
