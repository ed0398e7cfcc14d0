// One measurement from start to end: sealed, opened again, damaged and refused.
use aes::aes128::Aes128;
use lines::hex;
use mode::hbs::Hbs;
use multiplier::{Doubling, Multiplier};
use seal::fault::SealFault;
use seal::wrapping::{unwrap, wrap};
use std::str::from_utf8;

const KEY: [u8; 16] = [
    0x2b, 0x7e, 0x15, 0x16, 0x28, 0xae, 0xd2, 0xa6, 0xab, 0xf7, 0x15, 0x88, 0x09, 0xcf, 0x4f, 0x3c,
];

const HEADER: &str = "gauge 3";

const MEASUREMENT: &[u8; 18] = b"thickness 0.502 mm";

/// A name, and bytes in hex ..
fn field(rt: &HostRuntime, name: &str, bytes: &[u8]) -> anyhow::Result<()> {
    let digits = hex::encode(rt.alloc(), bytes)?;
    println!(rt; "  {name:<12} {digits}")?;
    Ok(())
}

/// .. and the text that they are.
fn text_field(rt: &HostRuntime, name: &str, bytes: &[u8]) -> anyhow::Result<()> {
    let digits = hex::encode(rt.alloc(), bytes)?;
    let text = from_utf8(bytes)?;
    println!(rt; "  {name:<12} {digits} ({text})")?;
    Ok(())
}

/// What opening came to, and what it left.
fn outcome(rt: &HostRuntime, answer: Result<(), SealFault>, text: &[u8]) -> anyhow::Result<()> {
    match answer {
        Ok(()) => {
            println!(rt; "  accepted")?;
            text_field(rt, "measurement", text)
        }
        Err(fault) => {
            let number = fault.number();
            println!(rt; "  refused {number} seal: {fault}")?;
            field(rt, "buffer", text)?;
            if text.iter().all(|b| *b == 0) {
                println!(rt; "  every byte of the buffer is zero")?;
            }
            Ok(())
        }
    }
}

pub(crate) fn show(rt: &HostRuntime) -> anyhow::Result<()> {
    let mut hbs = Hbs::new(Aes128::new(), Doubling::new());
    let header = HEADER.as_bytes();
    println!(rt; "A measurement, under AES-128 and the doubling multiplier")?;
    field(rt, "key", &KEY)?;
    text_field(rt, "header", header)?;
    text_field(rt, "measurement", MEASUREMENT)?;
    let mut tag = [0; 16];
    let mut text = *MEASUREMENT;
    wrap(&mut hbs, &KEY, Some(header), &mut tag, &mut text)?;
    println!(rt; "Sealed")?;
    field(rt, "tag", &tag)?;
    field(rt, "ciphertext", &text)?;
    let mut damaged = text;
    damaged[0] ^= 1;
    println!(rt; "Opened again")?;
    let answer = unwrap(&mut hbs, &KEY, Some(header), &tag, &mut text);
    outcome(rt, answer, &text)?;
    println!(rt; "One bit of the ciphertext flipped, and opened")?;
    let answer = unwrap(&mut hbs, &KEY, Some(header), &tag, &mut damaged);
    outcome(rt, answer, &damaged)
}
