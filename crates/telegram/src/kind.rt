// What a telegram brings.
ghost use Rattle.std.specs.Prelude.{◌≡◌, ◌≤◌};

use std::fmt;

/// The byte of a kind that has no name here.
#[derive(Clone, Copy, PartialEq, Eq, Debug)]
pub struct OtherKind {
    pub byte: u8,
    ghost unnamed: { 2 ≤ byte },
}

/// What a telegram brings, as its byte says. Kinds without a name here are read as they are, and each byte
/// is one kind.
#[derive(Clone, Copy, PartialEq, Eq, Debug)]
pub enum Kind {
    Measurement,
    Key,
    Other(OtherKind),
}

impl From<u8> for Kind {
    ghost use Rattle.telegram.specs.Kind.{kind_byte};

    ghost from_gives = { λ byte kind. kind_byte kind ≡ byte };

    fn from(byte: u8) -> Kind {
        match byte {
            0 => Kind::Measurement,
            1 => Kind::Key,
            byte => Kind::Other(OtherKind { byte }),
        }
    }
}

impl From<Kind> for u8 {
    ghost use Rattle.telegram.specs.Kind.{kind_byte};

    ghost from_gives = { λ kind byte. byte ≡ kind_byte kind };

    fn from(kind: Kind) -> u8 {
        match kind {
            Kind::Measurement => 0,
            Kind::Key => 1,
            Kind::Other(other) => other.byte,
        }
    }
}

/// A kind by its name, or by its number.
impl fmt::Display for Kind {
    ghost use Rattle.std.specs.Prelude.{Some};
    ghost use Rattle.telegram.specs.Kind.{kind_name};

    ghost output = { λ kind. Some (kind_name kind) };

    fn fmt<W: fmt::Write>(&self, f: &mut fmt::Formatter<W>) -> fmt::Result {
        match self {
            Kind::Measurement => f.write_str("measurement"),
            Kind::Key => f.write_str("key"),
            Kind::Other(other) => write!(f, "{}", other.byte),
        }
    }
}
