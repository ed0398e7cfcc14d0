//! The lines that are answered.

ghost use Rattle.std.specs.Prelude.{◌≡◌, IfOk, string_bytes};
ghost use Rattle.answers.specs.Texts.{sealed_text, opened_text, refused_text, malformed_text};

use lines::fault::LineFault;
use lines::hex;
use seal::fault::SealFault;
use std::alloc::{AllocError, Global};

/// `accepted TAG CIPHERTEXT`
pub(crate) fn sealed(heap: Global, tag: &[u8], ciphertext: &[u8]) -> Result<String, AllocError>
    ensures { IfOk result (λ s. string_bytes s ≡ sealed_text tag.now ciphertext.now) }
{
    let tag = hex::encode(heap, tag)?;
    let ciphertext = hex::encode(heap, ciphertext)?;
    format!(in heap; "accepted {tag} {ciphertext}")
}

/// `accepted MESSAGE`
pub(crate) fn opened(heap: Global, message: &[u8]) -> Result<String, AllocError>
    ensures { IfOk result (λ s. string_bytes s ≡ opened_text message.now) }
{
    let message = hex::encode(heap, message)?;
    format!(in heap; "accepted {message}")
}

/// `refused NUMBER seal: words`
pub(crate) fn refused(heap: Global, fault: SealFault) -> Result<String, AllocError>
    ensures { IfOk result (λ s. string_bytes s ≡ refused_text fault) }
{
    let number = fault.number();
    format!(in heap; "refused {number} seal: {fault}")
}

/// `malformed line N: words`
pub(crate) fn malformed(heap: Global, number: u64, fault: LineFault) -> Result<String, AllocError>
    ensures { IfOk result (λ s. string_bytes s ≡ malformed_text number fault) }
{
    format!(in heap; "malformed line {number}: {fault}")
}
