// Why a cipher refuses a key.
ghost use Rattle.std.specs.Prelude.{codes, Some};

use std::array::TryFromSliceError;
use std::error::Error;
use std::fmt;

/// The key doesn't have the length that the cipher asks for.
#[derive(Clone, Copy, PartialEq, Eq, Debug)]
pub struct WrongKeyLen;

impl fmt::Display for WrongKeyLen {
    ghost output = { λ _. Some (codes "the key has the wrong length") };

    fn fmt<W: fmt::Write>(&self, f: &mut fmt::Formatter<W>) -> fmt::Result {
        f.write_str("the key has the wrong length")
    }
}

impl Error for WrongKeyLen {}

impl From<TryFromSliceError> for WrongKeyLen {
    fn from(_error: TryFromSliceError) -> WrongKeyLen {
        WrongKeyLen
    }
}
