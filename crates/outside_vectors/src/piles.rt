// Ciphers as the vectors name them: a cipher's name, or `whitened:A:B:` before such a name, once or twice.
use anyhow::Context;
use block::Block;
use lines::fault::Field;
use lines::hex;
use named::task::{Task, Whitening, with_cipher};
use std::alloc::{AllocError, Global};

/// The two blocks of a whitening, and the name of what it is over.
struct Layer<'a> {
    before: Block,
    after: Block,
    over: &'a str,
}

pub(crate) fn read_block(heap: Global, text: &str) -> anyhow::Result<Block> {
    let bytes = hex::decode_array(heap, Field::Message, text.as_bytes())?;
    Ok(Block::from_bytes(bytes.context("a block has 16 bytes")?))
}

/// The outermost whitening of a name, if it has one.
fn outermost(heap: Global, name: &str) -> anyhow::Result<Option<Layer<'_>>> {
    let Some(rest) = name.strip_prefix("whitened:") else {
        return Ok(None);
    };
    let (before, rest) = rest.split_once(':').context("no block before")?;
    let (after, over) = rest.split_once(':').context("no block after")?;
    Ok(Some(Layer {
        before: read_block(heap, before)?,
        after: read_block(heap, after)?,
        over,
    }))
}

fn with_plain<T: Task + Drop>(name: &str, task: T) -> anyhow::Result<T::Outcome> {
    let name = name.parse().ok().context("no cipher of that name")?;
    Ok(with_cipher(name, task))
}

/// Does the task with the cipher that a name stands for; `inner` does it with what is below a whitening.
fn with_layer<T, F>(heap: Global, name: &str, task: T, inner: F) -> anyhow::Result<T::Outcome>
where
    T: Task + Drop,
    F: FnOnce(&str, Whitening<T>) -> anyhow::Result<T::Outcome> + Drop,
    requires { F.IsAlwaysCallable inner }
{
    match outermost(heap, name)? {
        Some(
            Layer {
                before,
                after,
                over,
            },
        ) => inner(
            over,
            Whitening {
                before,
                after,
                task,
            },
        ),
        None => with_plain(name, task),
    }
}

/// Does the task with the cipher that a name stands for.
pub(crate) fn with_pile<T: Task + Drop>(
    heap: Global,
    name: &str,
    task: T,
) -> anyhow::Result<T::Outcome> {
    with_layer(heap, name, task, |over, task| {
        with_layer(heap, over, task, |over, task| with_plain(over, task))
    })
}

/// A name without the blocks of its whitenings.
pub(crate) fn kind(heap: Global, name: &str) -> Result<String, AllocError> {
    let words: Vec<&str> = name
        .split(':')
        .filter(|word| word.len() != 32)
        .collect(heap)?;
    words.join(heap, " ")
}
