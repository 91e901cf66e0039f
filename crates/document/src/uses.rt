// What a posology is read or written for: 1 is a medication plan, 3 a prescription (document 01).
ghost use Rattle.std.specs.Prelude.{◌≡◌};
ghost use Rattle.document.specs.Valid.{is_use};

pub fn is_use(purpose: u64) -> bool
    ensures { result ≡ is_use purpose }
{
    purpose == 1 || purpose == 3
}
