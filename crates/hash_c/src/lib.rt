// The hash alone, over each multiplier, for measuring one against the other.
#![tactic(auto)]

ghost use Rattle.block.specs.Bytes.{bytes, spelled};
ghost use Rattle.hash_c.specs.Hashing.{Hashed, sized};
ghost use Rattle.mode.specs.Hash.{hash as hashed};
ghost use Rattle.std.specs.Prelude.{cond, is_ok, None, ◌≡◌};

use block::Block;
use mode::hash::hash;
use multiplier::{Doubling, Multiplier, Table};

/// The hash key, or the place for the hash, doesn't have the size of a block.
#[derive(Clone, Copy, PartialEq, Eq, Debug)]
struct WrongSize;

/// Writes the hash of the text, with no header, under the hash key.
fn hash_into<M: Multiplier + Drop>(
    hash_key: &[u8],
    text: &[u8],
    out: &mut [u8],
) -> Result<(), WrongSize>
    ensures fits { is_ok result ≡ sized hash_key.now out.old }
    ensures leaves { out.new ≡ cond (is_ok result) (bytes 16 (hashed (spelled hash_key.now) None text.now)) out.old }
{
    let hash_key = hash_key.as_array::<16>().ok_or(WrongSize)?;
    let out = out.as_mut_array::<16>().ok_or(WrongSize)?;
    let mut multiplier = M::new();
    multiplier.load(Block::from_bytes(*hash_key));
    *out = hash(&multiplier, None, text).to_bytes();
    Ok(())
}

/// The number that C is answered: 0, or 4 where a size is wrong.
fn number(answer: Result<(), WrongSize>) -> u32
    ensures { result ≡ cond (is_ok answer) 0 4 }
{
    // a number for a refusal: the C interface asks for it
    match answer {
        Ok(()) => 0,
        Err(WrongSize) => 4,
    }
}

// twins: C calls each by a name of its own

/// The hash over the multiplier that doubles as it goes.
#[unsafe(no_mangle)]
pub extern "C" fn yotskheni_bench_hash_doubling(hash_key: &[u8], text: &[u8], out: &mut [u8]) -> u32
    ensures { Hashed hash_key.now text.now out.old result out.new }
{
    number(hash_into::<Doubling>(hash_key, text, out))
}

/// The hash over the multiplier with a table.
#[unsafe(no_mangle)]
pub extern "C" fn yotskheni_bench_hash_table(hash_key: &[u8], text: &[u8], out: &mut [u8]) -> u32
    ensures { Hashed hash_key.now text.now out.old result out.new }
{
    number(hash_into::<Table>(hash_key, text, out))
}
