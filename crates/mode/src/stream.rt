// The counter stream.
ghost use Rattle.std.specs.Prelude.{◌≡◌, ◌+◌, ◌^◌, ◌<◌, ◌≤◌, length, bit_xor};
ghost use Rattle.block.specs.Num.{num};
ghost use Rattle.mode.specs.Stream.{streamed, xors};

use block::Block;
use cipher::Cipher;

/// XORs `part` with as many bytes of the key.
fn xor_into(part: &mut [u8], key: [u8; 16])
    requires { length part.old ≤ 16 }
    ensures { part.new ≡ xors part.old key }
{
    // tried `zip` with the key: once that ends, a proof knows how long the part is, and not its bytes
    for (i, byte) in part.iter_mut().enumerate() {
        *byte ^= key[i];
    }
}

/// The block that key block `i` is enciphered from: the start XORed with the number i + 1.
fn counter(start: Block, i: usize) -> Block
    requires { i + 1 < 2 ^ 64 }
    ensures { num result ≡ bit_xor (num start) (i + 1) }
{
    start ^ Block::from(i as u64 + 1)
}

/// XORs `text` with the stream that starts from `start`.
pub fn apply_stream<C: Cipher>(cipher: &C, start: Block, text: &mut [u8])
    ensures { text.new ≡ streamed ((C.scheme cipher.now).enc (C.loaded cipher.now)) (num start) text.old }
{
    let n = text.len();
    // tried `chunks_mut` and `split_at_mut`: once they end, a proof knows how long the text is, and not its bytes
    for i in 0..n.div_ceil(16) {
        let key = cipher.encipher(counter(start, i)).to_bytes();
        let at = 16 * i;
        let end = n.min(at + 16);
        xor_into(&mut text[at..end], key);
    }
}
