// The names, and which of them a packed one is.
ghost use Rattle.std.specs.Prelude.{◌≡◌, List, ℕ};
ghost use Rattle.read_names.specs.Names.{Packs, name_of, short_name};

use crate::packed::Packed;

#[derive(Clone, Copy, Debug, PartialEq, Eq)]
pub enum Name {
    T,
    Ds,
    Text,
    Tdo,
    CyDuU,
    CyDu,
    Tdpc,
    Sos,
    Do,
    Ts,
    Ss,
    Wds,
    Doms,
    MiDu,
    MiDuU,
    A,
    AFrom,
    ATo,
    DuU,
    Du,
    AMin,
    AMax,
    Po,
    Dt,
    S,
    DtFrom,
    DtTo,
    InRes,
    RelMeal,
    Unit,
    ApplInstr,
    Roa,
    Moa,
}

// How many there are.
pub(crate) const NAMES: usize = Name::Moa as usize + 1;

// Of at most seven bytes: all in one number, since each member's name is looked for here, and so none is compared byte by byte.
#[tactic(auto, unfolding(crate::specs::Names::short_name))]
fn short_name(head: u64) -> Option<Name>
    ensures { result ≡ short_name head }
{
    let name = match head {
        0x174 => Name::T,
        0x16473 => Name::Ds,
        0x174657874 => Name::Text,
        0x174646F => Name::Tdo,
        0x16379447555 => Name::CyDuU,
        0x163794475 => Name::CyDu,
        0x174647063 => Name::Tdpc,
        0x1736F73 => Name::Sos,
        0x1646F => Name::Do,
        0x17473 => Name::Ts,
        0x17373 => Name::Ss,
        0x1776473 => Name::Wds,
        0x1646F6D73 => Name::Doms,
        0x16D694475 => Name::MiDu,
        0x16D69447555 => Name::MiDuU,
        0x161 => Name::A,
        0x16146726F6D => Name::AFrom,
        0x161546F => Name::ATo,
        0x1647555 => Name::DuU,
        0x16475 => Name::Du,
        0x1614D696E => Name::AMin,
        0x1614D6178 => Name::AMax,
        0x1706F => Name::Po,
        0x16474 => Name::Dt,
        0x173 => Name::S,
        0x1647446726F6D => Name::DtFrom,
        0x16474546F => Name::DtTo,
        0x1696E526573 => Name::InRes,
        0x172656C4D65616C => Name::RelMeal,
        0x1756E6974 => Name::Unit,
        0x1726F61 => Name::Roa,
        0x16D6F61 => Name::Moa,
        _ => return None,
    };
    Some(name)
}

pub(crate) fn name_of(p: Packed) -> Option<Name>
    ensures { (name : List ℕ) → Packs name p → result ≡ name_of name }
{
    if p.tail == 1 {
        return short_name(p.head);
    }
    // applInstr is the one name of more than seven bytes
    if p.head == 0x16170706C496E73 && p.tail == 0x17472 {
        return Some(Name::ApplInstr);
    }
    None
}
