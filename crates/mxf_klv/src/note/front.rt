//! What a note says of a packet ahead of the value.
ghost use Rattle.std.specs.Prelude.{◌≡◌};
ghost use Rattle.mxf_klv.specs.Kind.{kind_of};
ghost use Rattle.mxf_klv.specs.Label.{IsLabel};

use crate::kinds::Kind;
use crate::kinds::table::kind;
use crate::label::Ul;

/// What stands ahead of a value: the key, with the kind that it says, and the number of bytes that spell the length.
#[derive(Clone, Copy, Debug)]
pub(super) struct Front {
    pub key: Ul,
    pub width: u8,
    pub kind: Kind,
}

impl Front {
    pub(super) fn new(key: Ul, width: u8) -> Front
        ensures key { result.key ≡ key }
        ensures width { result.width ≡ width }
        ensures kind { result.kind ≡ kind_of key }
        ensures label { IsLabel key }
    {
        let kind = kind(&key);
        Front { key, width, kind }
    }
}
