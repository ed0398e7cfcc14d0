// Padding: what tells whole blocks apart, and the last block of anything else.
ghost use Rattle.std.specs.Prelude.{◌≡◌, ◌-◌, ◌<◌, ◌∷◌, ◌++◌, length, replicate};
ghost use Rattle.block.specs.Bytes.{spelled};
ghost use Rattle.block.specs.Num.{num};
ghost use Rattle.mode.specs.Padding.{whole};

use block::Block;

/// Whether a string is whole blocks, and at least one.
pub(crate) fn is_whole(text: &[u8]) -> bool
    ensures { result ≡ whole text.now }
{
    !text.is_empty() && text.len() % 16 == 0
}

/// Fewer than 16 bytes, filled up to a block.
pub(crate) fn filled(rest: &[u8]) -> Block
    requires { length rest.now < 16 }
    ensures { num result ≡ spelled (rest.now ++ (0x80 ∷ replicate (15 - length rest.now) 0)) }
{
    let mut bytes = [0; 16];
    let n = rest.len();
    bytes[..n].copy_from_slice(rest);
    bytes[n] = 0x80;
    Block::from_bytes(bytes)
}
