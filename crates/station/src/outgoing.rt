// A message to be sealed.
ghost use Rattle.std.specs.Prelude.{◌≤◌, length};

use telegram::kind::Kind;

/// A message to be sealed, with a note. Both are of sizes that are taken.
#[derive(Clone, Copy)]
pub(crate) struct Outgoing<'a> {
    pub(crate) kind: Kind,
    pub(crate) note: &'a [u8],
    pub(crate) message: &'a [u8],
    ghost note_short: { length note.now ≤ 1018 },
    ghost message_short: { length message.now ≤ 4096 },
}
