// Vectors of the mode, `CIPHER KEY HEADER MESSAGE TAG CIPHERTEXT`: each is sealed, opened, and refused with another tag,
// over each multiplier.
ghost use Rattle.std.specs.Prelude.{◌≡◌, true, IfOk, string_bytes};
ghost use Rattle.outside_vectors.specs.Messages.{Holds};

use crate::piles::{kind, with_pile};
use answers::wrapping::{Answered, answer};
use anyhow::Context;
use cipher::Cipher;
use lines::fault::Field;
use lines::hex;
use lines::request::{UnwrapRequest, WrapRequest};
use mode::hbs::Hbs;
use multiplier::{Doubling, Multiplier, Table};
use named::task::Task;
use seal::fault::SealFault;
use std::alloc::{AllocError, Global};

/// The fields of a line, behind the cipher's name.
struct Fields<'a> {
    key: &'a str,
    header: &'a str,
    message: &'a str,
    tag: &'a str,
    ciphertext: &'a str,
}

/// A line for `wrap` or `unwrap`, and what it is to be answered.
#[derive(Drop)]
pub(crate) struct Exchange {
    pub(crate) line: String,
    pub(crate) answer: String,
}

/// What a message is sealed to, what that is opened to, and what it is with another tag.
#[derive(Drop)]
pub(crate) struct MessageVector {
    heap: Global,
    sealed: Exchange,
    opened: Exchange,
    damaged: Exchange,
}

impl Exchange {
    /// Whether the line is answered so, as a request of one form.
    fn holds<R: Answered, C: Cipher, M: Multiplier>(
        &self,
        heap: Global,
        hbs: &mut Hbs<C, M>,
    ) -> Result<bool, AllocError>
        ensures answers { IfOk result (λ same. same ≡ true → R.answers (C.scheme hbs.old.cipher) 1 (string_bytes self.now.line) ≡ string_bytes self.now.answer) }
        ensures scheme { C.scheme hbs.new.cipher ≡ C.scheme hbs.old.cipher }
    {
        let answer = answer::<R, C, M>(heap, hbs, 1, self.line.as_bytes())?;
        Ok(answer == self.answer)
    }
}

/// Whether all three exchanges come out so, over a multiplier.
fn agrees<C: Cipher, M: Multiplier>(
    hbs: &mut Hbs<C, M>,
    vector: &MessageVector,
) -> Result<bool, AllocError>
    ensures answers { IfOk result (λ same. same ≡ true → Holds (C.scheme hbs.old.cipher) vector.now) }
    ensures scheme { C.scheme hbs.new.cipher ≡ C.scheme hbs.old.cipher }
{
    let heap = vector.heap;
    let sealed = vector.sealed.holds::<WrapRequest, C, M>(heap, hbs)?;
    let opened = vector.opened.holds::<UnwrapRequest, C, M>(heap, hbs)?;
    let refused = vector.damaged.holds::<UnwrapRequest, C, M>(heap, hbs)?;
    Ok(sealed && opened && refused)
}

impl Task for MessageVector {
    type Outcome = Result<bool, AllocError>;

    ghost comes = { λ v s r. IfOk r (λ same. same ≡ true → Holds s v) };

    fn with<C: Cipher + Drop>(self, cipher: C) -> Result<bool, AllocError> {
        let mut hbs = Hbs::new(cipher, Doubling::new());
        let doubling = agrees(&mut hbs, &self)?;
        let Hbs { cipher, .. } = hbs;
        let mut hbs = Hbs::new(cipher, Table::new());
        let table = agrees(&mut hbs, &self)?;
        Ok(doubling && table)
    }
}

/// The tag with its first bit changed.
fn another_tag(heap: Global, tag: &str) -> anyhow::Result<String> {
    let mut bytes = hex::decode(heap, Field::Tag, tag.as_bytes())?;
    *bytes.first_mut().context("no tag")? ^= 0x80;
    Ok(hex::encode(heap, &bytes)?)
}

impl MessageVector {
    fn new(heap: Global, fields: Fields<'_>) -> anyhow::Result<MessageVector> {
        let Fields {
            key,
            header,
            message,
            tag,
            ciphertext,
        } = fields;
        let other = another_tag(heap, tag)?;
        let refusal = SealFault::Mismatch;
        let number = refusal.number();
        Ok(MessageVector {
            heap,
            sealed: Exchange {
                line: format!(in heap; "{key} {header} {message}")?,
                answer: format!(in heap; "accepted {tag} {ciphertext}")?,
            },
            opened: Exchange {
                line: format!(in heap; "{key} {header} {tag} {ciphertext}")?,
                answer: format!(in heap; "accepted {message}")?,
            },
            damaged: Exchange {
                line: format!(in heap; "{key} {header} {other} {ciphertext}")?,
                answer: format!(in heap; "refused {number} seal: {refusal}")?,
            },
        })
    }
}

/// What kind of vector a line has, or `None` where it doesn't come out as expected.
pub(crate) fn work(heap: Global, line: &str) -> anyhow::Result<Option<String>> {
    let mut words = line.split(' ');
    let name = words.next().context("no cipher")?;
    let fields = Fields {
        key: words.next().context("no key")?,
        header: words.next().context("no header")?,
        message: words.next().context("no message")?,
        tag: words.next().context("no tag")?,
        ciphertext: words.next().context("no ciphertext")?,
    };
    let agrees = with_pile(heap, name, MessageVector::new(heap, fields)?)??;
    let cipher = kind(heap, name)?;
    let kind = format!(in heap; "hbs {cipher}")?;
    Ok(agrees.then_some(kind))
}
