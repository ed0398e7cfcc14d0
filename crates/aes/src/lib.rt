// AES-128, by tables on four columns.
#![tactic(auto)]

pub mod aes128;
mod columns;
mod decrypt;
mod encrypt;
mod expand;
