// The walk for a C program that times it (bench/walk): the end of the one object, or the refusal's place and number.
#![tactic(auto)]

ghost use Rattle.std.specs.Prelude.{◌≡◌, ◌<◌};
ghost use Rattle.json_grammar.specs.Walk.{one_object};
ghost use Rattle.bench_walk.specs.Timed.{coded as coded_as, timed};

use json_walk::Fault;

#[unsafe(no_mangle)]
pub extern "C" fn timed_one_object(text: &[u8]) -> u64
    ensures { result ≡ timed text.now (one_object text.now) }
{
    match json_alone::one_object(text) {
        Ok(e) => coded(e, 0),
        Err(Fault::Broken(p)) => coded(p, 2),
        Err(Fault::Deep(p)) => coded(p, 3),
    }
}

// The number of a kind stays a number: it is what the C program reads.
fn coded(place: usize, kind: u64) -> u64
    requires { kind < 4 }
    ensures { result ≡ coded_as place kind }
{
    place as u64 % 0x100000000 * 4 + kind
}
