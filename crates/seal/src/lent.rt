// Wrap and unwrap, over a cipher and a multiplier that are lent: sealing and opening of one message in place, with the
// key handed in.
ghost use Rattle.mode.specs.Keys.{KeyedParts};
ghost use Rattle.seal.specs.Answers.{answered};
ghost use Rattle.seal.specs.Sizes.{sized};
ghost use Rattle.seal.specs.Wrapping.{Unwrapped, Wrapped};
ghost use Rattle.std.specs.Option.{option_copied};

use crate::fault::SealFault;
use crate::sizes::sizes_fit;
use crate::watch::Watch;
use block::Block;
use cipher::Cipher;
use mode::sealing::{load_key, seal};
use multiplier::Multiplier;

/// Seals `text` in place under `key`, and writes the tag.
///
/// Refused by `Size` where the key, the header, the tag buffer or the text is not of a size that is taken;
/// then nothing is altered. Else the cipher keeps the key, and the multiplier its hash key.
pub fn wrap<C: Cipher, M: Multiplier>(
    cipher: &mut C,
    multiplier: &mut M,
    key: &[u8],
    header: Option<&[u8]>,
    tag: &mut [u8],
    text: &mut [u8],
) -> Result<(), SealFault>
    ensures seals { Wrapped (C.scheme cipher.old) key.now (option_copied header.entry) tag.old text.old (answered result) tag.new text.new }
    ensures keys { KeyedParts C.Cipher M.Multiplier (sized (C.scheme cipher.old) key.now (option_copied header.entry) tag.old text.old) key.now cipher.old multiplier.old cipher.new multiplier.new }
{
    let tag = tag.as_mut_array::<16>().ok_or(SealFault::Size)?;
    if !sizes_fit(header, text) {
        return Err(SealFault::Size);
    }
    load_key(cipher, multiplier, key)?;
    let sealed = seal(cipher, multiplier, header, text).to_bytes();
    *tag = sealed;
    Ok(())
}

/// Opens `text` in place under `key`, where it belongs to the header and the tag.
///
/// Refused by `Size` as `wrap` is, and by `Mismatch` where no message seals to the header, the tag and the
/// text under that key. Whatever the refusal, every byte of `text` is then zero.
pub fn unwrap<C: Cipher, M: Multiplier>(
    cipher: &mut C,
    multiplier: &mut M,
    key: &[u8],
    header: Option<&[u8]>,
    tag: &[u8],
    text: &mut [u8],
) -> Result<(), SealFault>
    ensures opens { Unwrapped (C.scheme cipher.old) key.now (option_copied header.entry) tag.now text.old (answered result) text.new }
    ensures keys { KeyedParts C.Cipher M.Multiplier (sized (C.scheme cipher.old) key.now (option_copied header.entry) tag.now text.old) key.now cipher.old multiplier.old cipher.new multiplier.new }
{
    let mut watch = Watch {
        bytes: text,
        released: false,
    };
    let tag = tag.as_array::<16>().ok_or(SealFault::Size)?;
    if !watch.fits(header) {
        return Err(SealFault::Size);
    }
    load_key(cipher, multiplier, key)?;
    let Ok(()) = watch.open(cipher, multiplier, header, Block::from_bytes(*tag)) else {
        return Err(SealFault::Mismatch);
    };
    Ok(())
}
