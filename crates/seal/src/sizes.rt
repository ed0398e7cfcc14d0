// The sizes that are taken.
ghost use Rattle.seal.specs.Sizes.{message_sized};
ghost use Rattle.std.specs.Option.{option_copied};
ghost use Rattle.std.specs.Prelude.{◌≡◌};

/// The longest header, in bytes.
pub const MAX_HEADER: usize = 1024;

/// The longest text, in bytes.
pub const MAX_TEXT: usize = 4096;

/// Whether a header and a text are of sizes that are taken.
pub(crate) fn sizes_fit(header: Option<&[u8]>, text: &[u8]) -> bool
    ensures { result ≡ message_sized (option_copied header.entry) text.now }
{
    header.is_none_or(|header| header.len() <= MAX_HEADER) && text.len() <= MAX_TEXT
}
