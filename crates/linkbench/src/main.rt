// The link on the bench. With no argument: one measurement from start to end. With `wrap` or `unwrap`, a cipher and a
// multiplier: lines from standard input, each answered by a line. With `fields` and a telegram in hex: its parts.
#![tactic(auto)]

mod answering;
mod fields;
mod names;
mod show;

use answering::Answering;
use anyhow::{Context, anyhow};
use lines::request::{UnwrapRequest, WrapRequest};
use named::task::with_cipher;
use names::Call;
use std::env;

// kept short, since an error holds 120 bytes of text
const USAGE: &str =
    "usage: linkbench [fields HEX | wrap|unwrap aes128|bench|wide-xtea|wide-speck64128 doubling|table]";

fn run(rt: &HostRuntime) -> anyhow::Result<()> {
    let words: Vec<String> = env::args(rt)?.skip(1).collect(rt.alloc())?;
    match words.as_slice() {
        [] => show::show(rt),
        [call, telegram] if call.as_str() == "fields" => fields::show(rt, telegram.as_str()),
        [call, cipher, multiplier] => {
            let call = call.parse().ok().context(USAGE)?;
            let cipher = cipher.parse().ok().context(USAGE)?;
            let multiplier = multiplier.parse().ok().context(USAGE)?;
            match call {
                Call::Wrap => with_cipher(cipher, Answering::<WrapRequest>::new(rt, multiplier)),
                Call::Unwrap => {
                    with_cipher(cipher, Answering::<UnwrapRequest>::new(rt, multiplier))
                }
            }
        }
        _ => Err(anyhow!("{USAGE}")),
    }
}

fn main(rt: HostRuntime) -> anyhow::Result<()> {
    run(&rt)
}
