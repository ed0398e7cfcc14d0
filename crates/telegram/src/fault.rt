// Why bytes are no telegram.
ghost use Rattle.std.specs.Prelude.{◌≡◌, Some};
ghost use Rattle.telegram.specs.Answers.{refusal, words};

use std::error::Error;
use std::fmt;

#[derive(Clone, Copy, PartialEq, Eq, Debug)]
pub enum TelegramFault {
    /// The first byte is not the version that is read.
    Version = 6,
    /// A length is out of its range, or the lengths do not add up to the buffer's.
    Lengths = 7,
}

impl TelegramFault {
    /// The number that the outside knows the fault by.
    pub fn number(self) -> u32
        ensures { result ≡ refusal self }
    {
        self as u32
    }

    /// What is wrong, in words. `Display` writes them, and a layer above passes them on with no heap.
    pub fn words(self) -> &'static str
        ensures { result.now ≡ words self }
    {
        match self {
            TelegramFault::Version => "the version is not one that is read",
            TelegramFault::Lengths => "a length is out of range, or the lengths do not add up",
        }
    }
}

impl fmt::Display for TelegramFault {
    ghost output = { λ fault. Some (words fault) };

    fn fmt<W: fmt::Write>(&self, f: &mut fmt::Formatter<W>) -> fmt::Result {
        f.write_str(self.words())
    }
}

impl Error for TelegramFault {}
