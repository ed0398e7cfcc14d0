// Ciphers and multipliers by their names, for programs that are told which to take.
#![tactic(auto)]

pub mod cipher_name;
pub mod multiplier_name;
pub mod task;
pub mod unknown_name;
