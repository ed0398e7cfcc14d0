// A station, which seals and opens telegrams.
#![tactic(auto)]

mod admission;
mod admitting;
mod counting;
pub mod declining;
mod examining;
pub mod fault;
mod gauge_number;
mod held;
mod incoming;
pub mod opening;
pub mod opening_keys;
pub mod order;
mod outgoing;
pub mod parts;
pub mod reporting;
pub mod sealing;
pub mod starting;
pub mod wear;
