// Telegrams: the frame around a sealed message, and the header that stands in it.
#![tactic(auto)]

ghost use Rattle.telegram.specs.Theorems.{FormatLaws};

pub mod fault;
pub mod header;
pub mod kind;
pub mod parts;
pub mod reading;
pub mod sizes;
pub mod writing;

/// States that reading and writing undo each other, and that each byte is one kind.
pub fn format_laws()
    ensures { FormatLaws }
{}
