// Vectors of ciphers, `CIPHER KEY BLOCK ENCIPHERED`, worked both ways.
ghost use Rattle.std.specs.Prelude.{◌≡◌, ℕ};
ghost use Rattle.block.specs.Num.{num};
ghost use Rattle.outside_vectors.specs.Agrees.{agrees, agrees_half};

use crate::piles::{kind, read_block, with_pile};
use anyhow::Context;
use block::Block;
use cipher::Cipher;
use half_cipher::speck::Speck64;
use half_cipher::xtea::Xtea;
use half_cipher::{HalfCipher, HalfKey};
use lines::fault::Field;
use lines::hex;
use named::task::Task;
use std::alloc::Global;

/// A block that a cipher takes to another under a key.
// beside the Vector of `vectors`: that program knows no names, and a crate for the three fields alone is no plainer
#[derive(Drop)]
pub(crate) struct BlockVector {
    key: Vec<u8>,
    block: Block,
    enciphered: Block,
}

impl Task for BlockVector {
    type Outcome = bool;

    ghost comes = { λ v s r. r ≡ agrees s v.key.items (num v.block) (num v.enciphered) };

    fn with<C: Cipher + Drop>(self, mut cipher: C) -> bool {
        cipher.load(&self.key).is_ok()
            && cipher.encipher(self.block) == self.enciphered
            && cipher.decipher(self.enciphered) == self.block
    }
}

fn half_agrees<H: HalfCipher>(cipher: &H, key: &HalfKey, half: u64, enciphered: u64) -> bool
    ensures { result ≡ agrees_half (H.maps cipher.now) key.now half enciphered }
{
    cipher.forward(key, half) == enciphered && cipher.backward(key, enciphered) == half
}

fn read_half(heap: Global, text: &str) -> anyhow::Result<u64> {
    let bytes = hex::decode_array(heap, Field::Message, text.as_bytes())?;
    Ok(u64::from_be_bytes(bytes.context("a half has 8 bytes")?))
}

fn work_half<H: HalfCipher>(
    heap: Global,
    cipher: &H,
    key: &[u8],
    half: &str,
    enciphered: &str,
) -> anyhow::Result<bool> {
    let half = read_half(heap, half)?;
    let enciphered = read_half(heap, enciphered)?;
    Ok(<HalfKey>::try_from(key).is_ok_and(|key| half_agrees(cipher, &key, half, enciphered)))
}

/// What kind of vector a line has, or `None` where it doesn't come out as expected.
pub(crate) fn work(heap: Global, line: &str) -> anyhow::Result<Option<String>> {
    let mut fields = line.split(' ');
    let name = fields.next().context("no cipher")?;
    let key = hex::decode(
        heap,
        Field::Key,
        fields.next().context("no key")?.as_bytes(),
    )?;
    let block = fields.next().context("no block")?;
    let enciphered = fields.next().context("no enciphered block")?;
    let agrees = match name {
        "xtea" => work_half(heap, &Xtea, &key, block, enciphered)?,
        "speck64128" => work_half(heap, &Speck64, &key, block, enciphered)?,
        _ => {
            let vector = BlockVector {
                key,
                block: read_block(heap, block)?,
                enciphered: read_block(heap, enciphered)?,
            };
            with_pile(heap, name, vector)?
        }
    };
    let kind = kind(heap, name)?;
    Ok(agrees.then_some(kind))
}
