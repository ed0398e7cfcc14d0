// Why a message is not wrapped or unwrapped.
ghost use Rattle.seal.specs.Answers.{refusal, words};
ghost use Rattle.seal.specs.declared.fault.SealFault.TheVariants.{Mismatch, Size};
ghost use Rattle.std.specs.Prelude.{◌≡◌, Some};

use cipher::WrongKeyLen;
use mode::mismatch::Mismatch;
use std::error::Error;
use std::fmt;

#[derive(Clone, Copy, PartialEq, Eq, Debug)]
pub enum SealFault {
    /// The key, the header, the tag buffer or the text is not of a size that is taken.
    Size = 4,
    /// The hash of what was opened is not the one that the tag stands for.
    Mismatch = 14,
}

impl SealFault {
    /// The number that the outside knows the fault by.
    pub fn number(self) -> u32
        ensures { result ≡ refusal self }
    {
        self as u32
    }

    /// What is wrong, in words. They have a clause of their own; `Display` is one line over them.
    pub fn words(self) -> &'static str
        ensures { result.now ≡ words self }
    {
        match self {
            SealFault::Size => "a length is not one that is taken",
            SealFault::Mismatch => "tag and text do not belong together under this key and header",
        }
    }
}

impl From<WrongKeyLen> for SealFault {
    ghost from_gives = { λ _ fault. fault ≡ Size };

    fn from(_wrong: WrongKeyLen) -> Self {
        Self::Size
    }
}

impl From<Mismatch> for SealFault {
    ghost from_gives = { λ _ fault. fault ≡ Mismatch };

    fn from(_mismatch: Mismatch) -> Self {
        Self::Mismatch
    }
}

impl fmt::Display for SealFault {
    ghost output = { λ fault. Some (words fault) };

    fn fmt<W: fmt::Write>(&self, f: &mut fmt::Formatter<W>) -> fmt::Result {
        f.write_str(self.words())
    }
}

impl Error for SealFault {}
