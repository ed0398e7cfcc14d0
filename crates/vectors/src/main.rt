// Vectors of the ciphers, published ones and others made by an independent program. Each line of standard input is
// `CIPHER KEY BLOCK ENCIPHERED`; it is worked in both directions, and answered by a line that says what came of it.
#![tactic(auto)]

use aes::aes128::Aes128;
use anyhow::{Context, anyhow};
use block::Block;
use cipher::Cipher;
use cipher::bench::Bench;
use lines::fault::Field;
use lines::hex;
use std::alloc::Global;
use std::io::{BufRead, BufReader};

/// A block that a cipher maps to another under a key.
#[derive(Drop)]
struct Vector {
    key: Vec<u8>,
    block: Block,
    enciphered: Block,
}

// as in outside_vectors: two lines, in programs that share no crate over both blocks and hex
fn read_block(heap: Global, text: &str) -> anyhow::Result<Block> {
    let bytes = hex::decode_array(heap, Field::Message, text.as_bytes())?;
    Ok(Block::from_bytes(bytes.context("a block has 16 bytes")?))
}

/// What both directions come to.
fn worked<C: Cipher + Drop>(mut cipher: C, vector: &Vector) -> &'static str {
    if cipher.load(&vector.key).is_err() {
        "a key of another length"
    } else if cipher.encipher(vector.block) != vector.enciphered {
        "enciphered to another block"
    } else if cipher.decipher(vector.enciphered) != vector.block {
        "deciphered to another block"
    } else {
        "as expected, both ways"
    }
}

/// What a line comes to.
fn answer(heap: Global, line: &str) -> anyhow::Result<&'static str> {
    let mut fields = line.split(' ');
    let name = fields.next().context("no cipher")?;
    let key = hex::decode(
        heap,
        Field::Key,
        fields.next().context("no key")?.as_bytes(),
    )?;
    let block = read_block(heap, fields.next().context("no block")?)?;
    let enciphered = read_block(heap, fields.next().context("no enciphered block")?)?;
    let vector = Vector {
        key,
        block,
        enciphered,
    };
    match name {
        "aes128" => Ok(worked(Aes128::new(), &vector)),
        "bench" => Ok(worked(Bench::new(), &vector)),
        _ => Err(anyhow!("no cipher of that name")),
    }
}

fn run(rt: &HostRuntime) -> anyhow::Result<()> {
    for line in BufReader::new(rt.alloc(), rt.stdin())?.lines(rt.alloc()) {
        let line = line?;
        let outcome = answer(rt.alloc(), &line)?;
        println!(rt; "{line}: {outcome}")?;
    }
    Ok(())
}

fn main(rt: HostRuntime) -> anyhow::Result<()> {
    run(&rt)
}
