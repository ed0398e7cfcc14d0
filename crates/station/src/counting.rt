// Counting a call as wear.
ghost use Rattle.std.specs.Prelude.{◌≡◌, ◌^◌, ◌≤◌, true, false, MatchResult};
ghost use Rattle.station.specs.Use.{blocks, counted, passes, unused, use_of};
ghost use Rattle.station.specs.declared.fault.StationFault.TheVariants.{Worn};

use crate::fault::StationFault;
use crate::wear::Wear;
use telegram::sizes::Sizes;

/// The blocks of a string of `len` bytes: a part block counts as one, and none as one too.
fn blocks_of(len: usize) -> u64
    ensures { result ≡ blocks len }
{
    (len as u64).div_ceil(16).max(1)
}

impl Wear {
    /// No call counted.
    pub(crate) fn none(allowance: u64) -> Wear
        requires { allowance ≤ 2 ^ 48 }
        ensures { use_of result ≡ unused allowance }
    {
        Wear {
            calls: 0,
            header_blocks: 1,
            message_blocks: 1,
            allowance,
        }
    }

    /// With one more call, of a header and a message of these sizes; refused where that passes the allowance.
    pub(crate) fn and_one(&self, sizes: Sizes) -> Result<Wear, StationFault>
        ensures { MatchResult result (λ w. (passes sizes.header sizes.message (use_of self.now) ≡ false) × (use_of w ≡ counted sizes.header sizes.message (use_of self.now))) (λ fault. (passes sizes.header sizes.message (use_of self.now) ≡ true) × (fault ≡ Worn)) }
    {
        let calls = self.calls + 1;
        let header_blocks = self.header_blocks.max(blocks_of(sizes.header));
        let message_blocks = self.message_blocks.max(blocks_of(sizes.message));
        if calls * (1 + header_blocks + 2 * message_blocks) > self.allowance {
            return Err(StationFault::Worn);
        }
        Ok(Wear {
            calls,
            header_blocks,
            message_blocks,
            allowance: self.allowance,
        })
    }
}
