//! The answers to lines that ask to wrap and to unwrap.

ghost use Rattle.std.specs.Prelude.{◌≡◌, ℕ, List, Ok, Err, IfOk, string_bytes};
ghost use Rattle.std.proofs.Common.{ap};
ghost use Rattle.cipher.specs.Scheme.{Scheme};
ghost use Rattle.lines.specs.declared.fault.LineFault.{LineFault};
ghost use Rattle.lines.specs.Lines.{to_wrap, to_unwrap};
ghost use Rattle.answers.specs.Replies.{wrap_reply, unwrap_reply, reply, wrap_answer, unwrap_answer};
ghost use Rattle.answers.specs.Texts.{malformed_text};

use crate::{lent, text};
use cipher::Cipher;
use lines::fault::LineFault;
use lines::request::{Request, UnwrapRequest, WrapRequest};
use mode::hbs::Hbs;
use multiplier::Multiplier;
use seal::lent::{unwrap, wrap};
use std::alloc::{AllocError, Global};

/// A request that is answered by a line.
pub trait Answered: Request {
    /// What a request is answered, under a cipher's scheme ..
    ghost replies: { Scheme → Self → List ℕ };

    /// .. and what a line is, by its number.
    ghost answers: { Scheme → ℕ → List ℕ → List ℕ };

    /// Answers the request, over a cipher and a multiplier that are lent. An error is want of memory.
    fn reply_lent<C: Cipher, M: Multiplier>(
        self,
        heap: Global,
        cipher: &mut C,
        multiplier: &mut M,
    ) -> Result<String, AllocError>
        ensures answers { IfOk result (λ t. string_bytes t ≡ replies (C.scheme cipher.old) self) }
        // the clause `scheme` stays in each contract: it sets what a cipher is against what it was, which no type says
        ensures scheme { C.scheme cipher.new ≡ C.scheme cipher.old };

    /// .. and under a cipher beside its multiplier.
    fn reply<C: Cipher, M: Multiplier>(
        self,
        heap: Global,
        hbs: &mut Hbs<C, M>,
    ) -> Result<String, AllocError>
        ensures answers { IfOk result (λ t. string_bytes t ≡ replies (C.scheme hbs.old.cipher) self) }
        ensures scheme { C.scheme hbs.new.cipher ≡ C.scheme hbs.old.cipher }
    {
        self.reply_lent(heap, &mut hbs.cipher, &mut hbs.multiplier)
    }

    /// A line that is read is answered as its request is, and another by what is wrong with it.
    ghost read: { (s : Scheme) (n : ℕ) (line : List ℕ) (request : Self) → Self.reading line ≡ Ok (Self.asked request) → answers s n line ≡ replies s request };

    ghost unread: { (s : Scheme) (n : ℕ) (line : List ℕ) (fault : LineFault) → Self.reading line ≡ Err fault → answers s n line ≡ malformed_text n fault };
}

/// Answers a line that is to be a request of one form, or says what is wrong with it.
///
/// An error is want of memory. Which key is then held is left open: each line brings its own.
pub fn answer<R: Answered, C: Cipher, M: Multiplier>(
    heap: Global,
    hbs: &mut Hbs<C, M>,
    number: u64,
    line: &[u8],
) -> Result<String, AllocError>
    ensures answers { IfOk result (λ t. string_bytes t ≡ R.answers (C.scheme hbs.old.cipher) number line.now) }
    ensures scheme { C.scheme hbs.new.cipher ≡ C.scheme hbs.old.cipher }
{
    lent::answer::<R, C, M>(heap, &mut hbs.cipher, &mut hbs.multiplier, number, line)
}

/// Answers the line `KEY HEADER MESSAGE` with `accepted TAG CIPHERTEXT`, or with what is wrong.
///
/// The cipher and the multiplier are lent. An error is want of memory.
pub fn answer_wrap<C: Cipher, M: Multiplier>(
    heap: Global,
    cipher: &mut C,
    multiplier: &mut M,
    number: u64,
    line: &[u8],
) -> Result<String, AllocError>
    ensures answers { IfOk result (λ t. string_bytes t ≡ wrap_answer (C.scheme cipher.old) number line.now) }
    ensures scheme { C.scheme cipher.new ≡ C.scheme cipher.old }
{
    lent::answer::<WrapRequest, C, M>(heap, cipher, multiplier, number, line)
}

/// Answers the line `KEY HEADER TAG CIPHERTEXT` with `accepted MESSAGE`, or with what is wrong.
///
/// The cipher and the multiplier are lent. An error is want of memory.
pub fn answer_unwrap<C: Cipher, M: Multiplier>(
    heap: Global,
    cipher: &mut C,
    multiplier: &mut M,
    number: u64,
    line: &[u8],
) -> Result<String, AllocError>
    ensures answers { IfOk result (λ t. string_bytes t ≡ unwrap_answer (C.scheme cipher.old) number line.now) }
    ensures scheme { C.scheme cipher.new ≡ C.scheme cipher.old }
{
    lent::answer::<UnwrapRequest, C, M>(heap, cipher, multiplier, number, line)
}

/// `accepted TAG CIPHERTEXT`
impl Answered for WrapRequest {
    ghost replies = { λ s request. wrap_reply s (to_wrap request) };

    ghost answers = { wrap_answer };

    ghost read = { λ s n line request e. ap (reply n (wrap_reply s)) e };

    ghost unread = { λ s n line fault e. ap (reply n (wrap_reply s)) e };

    fn reply_lent<C: Cipher, M: Multiplier>(
        self,
        heap: Global,
        cipher: &mut C,
        multiplier: &mut M,
    ) -> Result<String, AllocError> {
        let WrapRequest {
            key,
            header,
            mut message,
        } = self;
        let mut tag = [0; 16];
        match wrap(
            cipher,
            multiplier,
            &key,
            header.as_deref(),
            &mut tag,
            &mut message,
        ) {
            Ok(()) => text::sealed(heap, &tag, &message),
            Err(fault) => text::refused(heap, fault),
        }
    }
}

/// `accepted MESSAGE`
impl Answered for UnwrapRequest {
    ghost replies = { λ s request. unwrap_reply s (to_unwrap request) };

    ghost answers = { unwrap_answer };

    ghost read = { λ s n line request e. ap (reply n (unwrap_reply s)) e };

    ghost unread = { λ s n line fault e. ap (reply n (unwrap_reply s)) e };

    fn reply_lent<C: Cipher, M: Multiplier>(
        self,
        heap: Global,
        cipher: &mut C,
        multiplier: &mut M,
    ) -> Result<String, AllocError> {
        let UnwrapRequest {
            key,
            header,
            tag,
            mut ciphertext,
        } = self;
        match unwrap(
            cipher,
            multiplier,
            &key,
            header.as_deref(),
            &tag,
            &mut ciphertext,
        ) {
            Ok(()) => text::opened(heap, &ciphertext),
            Err(fault) => text::refused(heap, fault),
        }
    }
}
