// The counter stream of AES-128 alone, for measuring it against AES in C.
#![tactic(auto)]

ghost use Rattle.aes.specs.Scheme.{aes128};
ghost use Rattle.mode.specs.Stream.{streamed};
ghost use Rattle.std.specs.Prelude.{cond, eqb, is_ok, length, ◌==◌, ◌≡◌};

use aes::aes128::Aes128;
use block::Block;
use cipher::{Cipher, WrongKeyLen};
use mode::stream::apply_stream;

/// XORs the text with the stream that starts from the zero block. A key of another length is refused, and alters nothing.
fn stream(key: &[u8], text: &mut [u8]) -> Result<(), WrongKeyLen>
    ensures fits { is_ok result ≡ (length key.now == 16) }
    ensures leaves { text.new ≡ cond (is_ok result) (streamed (aes128.enc key.now) 0 text.old) text.old }
{
    let mut cipher = Aes128::new();
    cipher.load(key)?;
    apply_stream(&cipher, Block::ZERO, text);
    Ok(())
}

/// XORs the text with the stream that starts from the zero block: 0, or 4 where the key has not 16 bytes.
#[unsafe(no_mangle)]
pub extern "C" fn yotskheni_bench_stream(key: &[u8], text: &mut [u8]) -> u32
    ensures answers { result ≡ cond (eqb (length key.now) 16) 0 4 }
    ensures leaves { text.new ≡ cond (eqb (length key.now) 16) (streamed (aes128.enc key.now) 0 text.old) text.old }
{
    // a number for a refusal: the C interface asks for it
    match stream(key, text) {
        Ok(()) => 0,
        Err(WrongKeyLen) => 4,
    }
}
