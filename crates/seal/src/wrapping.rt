// Wrap and unwrap under a cipher beside its multiplier.
ghost use Rattle.mode.specs.Keys.{Keyed};
ghost use Rattle.seal.specs.Answers.{answered};
ghost use Rattle.seal.specs.Sizes.{sized};
ghost use Rattle.seal.specs.Wrapping.{Unwrapped, Wrapped};
ghost use Rattle.std.specs.Option.{option_copied};

use crate::fault::SealFault;
use crate::lent;
use cipher::Cipher;
use mode::hbs::Hbs;
use multiplier::Multiplier;

/// Seals `text` in place under `key`, and writes the tag.
///
/// Refused by `Size` where the key, the header, the tag buffer or the text is not of a size that is taken;
/// then nothing is altered. Else the cipher keeps the key, and the multiplier its hash key.
pub fn wrap<C: Cipher, M: Multiplier>(
    hbs: &mut Hbs<C, M>,
    key: &[u8],
    header: Option<&[u8]>,
    tag: &mut [u8],
    text: &mut [u8],
) -> Result<(), SealFault>
    ensures seals { Wrapped (C.scheme hbs.old.cipher) key.now (option_copied header.entry) tag.old text.old (answered result) tag.new text.new }
    ensures keys { Keyed C.Cipher M.Multiplier (sized (C.scheme hbs.old.cipher) key.now (option_copied header.entry) tag.old text.old) key.now hbs.old hbs.new }
{
    lent::wrap(&mut hbs.cipher, &mut hbs.multiplier, key, header, tag, text)
}

/// Opens `text` in place under `key`, where it belongs to the header and the tag.
///
/// Refused by `Size` as `wrap` is, and by `Mismatch` where no message seals to the header, the tag and the
/// text under that key. Whatever the refusal, every byte of `text` is then zero.
pub fn unwrap<C: Cipher, M: Multiplier>(
    hbs: &mut Hbs<C, M>,
    key: &[u8],
    header: Option<&[u8]>,
    tag: &[u8],
    text: &mut [u8],
) -> Result<(), SealFault>
    ensures opens { Unwrapped (C.scheme hbs.old.cipher) key.now (option_copied header.entry) tag.now text.old (answered result) text.new }
    ensures keys { Keyed C.Cipher M.Multiplier (sized (C.scheme hbs.old.cipher) key.now (option_copied header.entry) tag.now text.old) key.now hbs.old hbs.new }
{
    lent::unwrap(&mut hbs.cipher, &mut hbs.multiplier, key, header, tag, text)
}
