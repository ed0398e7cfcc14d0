// What is done with a cipher that is known by its name.
ghost use Rattle.block.specs.Num.{num};
ghost use Rattle.cipher.specs.Scheme.{Scheme};
ghost use Rattle.cipher.specs.Whitened.{whitened};
ghost use Rattle.named.specs.Schemes.{scheme_named};
ghost use Rattle.std.specs.Prelude.{◌≡◌};

use crate::cipher_name::CipherName;
use aes::aes128::Aes128;
use block::Block;
use cipher::Cipher;
use cipher::bench::Bench;
use cipher::whitened::Whitened;
use half_cipher::speck::Speck64;
use half_cipher::xtea::Xtea;
use wide::Wide;

// a trait and no closure: a closure would take the ciphers of one type alone
/// Something to be done with a cipher, whichever it is.
pub trait Task: Sized {
    type Outcome;

    // what may come of it under a scheme
    ghost comes: { Self → Scheme → Self.Outcome → Type 0 };

    fn with<C: Cipher + Drop>(self, cipher: C) -> Self::Outcome
        ensures { comes self (C.scheme cipher) result };
}

/// Does the task with a new cipher of that name.
pub fn with_cipher<T: Task>(name: CipherName, task: T) -> T::Outcome
    ensures { T.Task.comes task (scheme_named name) result }
{
    match name {
        CipherName::Aes128 => task.with(Aes128::new()),
        CipherName::Bench => task.with(Bench::new()),
        CipherName::WideXtea => task.with(Wide::new(Xtea)),
        CipherName::WideSpeck64128 => task.with(Wide::new(Speck64)),
    }
}

/// A task over a cipher between two blocks.
#[derive(Drop)]
pub struct Whitening<T> {
    pub before: Block,
    pub after: Block,
    pub task: T,
}

impl<T: Task> Task for Whitening<T> {
    type Outcome = T::Outcome;

    ghost comes = { λ w s r. T.Task.comes w.task (whitened (num w.before) (num w.after) s) r };

    fn with<C: Cipher + Drop>(self, cipher: C) -> T::Outcome {
        let Whitening {
            before,
            after,
            task,
        } = self;
        task.with(Whitened::new(cipher, before, after))
    }
}
