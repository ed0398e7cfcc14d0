// Why a message does not open.
ghost use Rattle.std.specs.Prelude.{codes, Some};

use std::error::Error;
use std::fmt;

/// The hash of what was opened is not the one that the tag stands for.
#[derive(Clone, Copy, PartialEq, Eq, Debug)]
pub struct Mismatch;

impl fmt::Display for Mismatch {
    ghost output = { λ _. Some (codes "tag and text do not belong together") };

    fn fmt<W: fmt::Write>(&self, f: &mut fmt::Formatter<W>) -> fmt::Result {
        f.write_str("tag and text do not belong together")
    }
}

impl Error for Mismatch {}
