// The wear of a key.
ghost use Rattle.std.specs.Prelude.{◌+◌, ◌*◌, ◌^◌, ◌≤◌};

/// How much a key has been used, and how much it may be. Wear is the number of counted calls, times one more than the
/// largest number of header blocks and twice that of message blocks; it is within the allowance.
#[derive(Clone, Copy)]
pub struct Wear {
    pub(crate) calls: u64,
    pub(crate) header_blocks: u64,
    pub(crate) message_blocks: u64,
    pub(crate) allowance: u64,
    ghost within: { calls * (1 + header_blocks + 2 * message_blocks) ≤ allowance },
    ghost ranges: { (allowance ≤ 2 ^ 48) × (1 ≤ header_blocks) × (header_blocks ≤ 64) × (1 ≤ message_blocks) × (message_blocks ≤ 256) },
}
