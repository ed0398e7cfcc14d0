// Sealing and opening in place, over a cipher and a multiplier that are lent, under the key and the hash key that they
// hold.
ghost use Rattle.block.specs.Num.{num};
ghost use Rattle.mode.specs.Keys.{KeyedParts};
ghost use Rattle.mode.specs.Sealing.{opened_by, pair, sealed_by};
ghost use Rattle.mode.specs.Stream.{streamed};
ghost use Rattle.std.specs.Option.{option_copied};
ghost use Rattle.std.specs.Prelude.{◌≡◌, length, is_ok, if◌then◌else◌, Some, None, ◌==◌};

use crate::hash::hash;
use crate::mismatch::Mismatch;
use crate::stream::apply_stream;
use block::Block;
use cipher::{Cipher, WrongKeyLen};
use multiplier::Multiplier;

/// Loads a key, and with it the hash key, which is the zero block enciphered. A key of another length is
/// refused, and alters nothing.
pub fn load_key<C: Cipher, M: Multiplier>(
    cipher: &mut C,
    multiplier: &mut M,
    key: &[u8],
) -> Result<(), WrongKeyLen>
    ensures fits { is_ok result ≡ (length key.now == (C.scheme cipher.old).key_len) }
    ensures keys { KeyedParts C.Cipher M.Multiplier (is_ok result) key.now cipher.old multiplier.old cipher.new multiplier.new }
{
    cipher.load(key)?;
    multiplier.load(cipher.encipher(Block::ZERO));
    Ok(())
}

/// Seals `text` in place, and answers the tag.
pub fn seal<C: Cipher, M: Multiplier>(
    cipher: &C,
    multiplier: &M,
    header: Option<&[u8]>,
    text: &mut [u8],
) -> Block
    ensures { pair (num result) text.new ≡ sealed_by (M.element multiplier.now) ((C.scheme cipher.now).enc (C.loaded cipher.now)) (option_copied header.entry) text.old }
{
    let start = hash(multiplier, header, text);
    apply_stream(cipher, start, text);
    cipher.encipher(start)
}

/// Takes the stream off `text` in place. Refused where what is left is not authentic: it still stands in `text`
/// then, and the caller clears it.
pub fn open<C: Cipher, M: Multiplier>(
    cipher: &C,
    multiplier: &M,
    header: Option<&[u8]>,
    tag: Block,
    text: &mut [u8],
) -> Result<(), Mismatch>
    ensures opens { (if is_ok result then Some text.new else None) ≡ opened_by (M.element multiplier.now) ((C.scheme cipher.now).enc (C.loaded cipher.now)) ((C.scheme cipher.now).dec (C.loaded cipher.now)) (option_copied header.entry) (pair (num tag) text.old) }
    ensures leaves { text.new ≡ streamed ((C.scheme cipher.now).enc (C.loaded cipher.now)) ((C.scheme cipher.now).dec (C.loaded cipher.now) (num tag)) text.old }
{
    let start = cipher.decipher(tag);
    apply_stream(cipher, start, text);
    if hash(multiplier, header, text) == start {
        Ok(())
    } else {
        Err(Mismatch)
    }
}
