// Wrapping and unwrapping of one message in place.
#![tactic(auto)]

pub mod fault;
pub mod lent;
pub mod sizes;
pub mod watch;
pub mod wrapping;
