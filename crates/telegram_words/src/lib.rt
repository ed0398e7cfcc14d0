//! What is told of a telegram, one part to a line.
#![tactic(auto)]

ghost use Rattle.std.specs.Prelude.{◌≡◌, IfOk, MatchResult, string_bytes};
ghost use Rattle.telegram.specs.Calls.{parts_of};
ghost use Rattle.telegram.specs.Header.{heading};
ghost use Rattle.telegram_words.specs.Words.{fields_answer, text_of_head, text_of_part, text_of_parts, refused_fields};

use lines::hex;
use std::alloc::{AllocError, Global};
use telegram::fault::TelegramFault;
use telegram::header::Header;
use telegram::parts::Fields;
use telegram::reading::fields;
use telegram::sizes::{HEADER_START, MIN_HEADER};

/// The gauge, the serial and the kind.
fn head_text(heap: Global, header: &Header<'_>) -> Result<String, AllocError>
    ensures { IfOk result (λ s. string_bytes s ≡ text_of_head (heading header.now)) }
{
    format!(in heap;
        "gauge: {}\nserial: {}\nkind: {}",
        header.gauge, header.serial, header.kind
    )
}

/// Bytes of a telegram, and where they start.
fn part_text(heap: Global, name: &str, start: usize, bytes: &[u8]) -> Result<String, AllocError>
    ensures { IfOk result (λ s. string_bytes s ≡ text_of_part name.now start bytes.now) }
{
    let len = bytes.len();
    let digits = hex::encode(heap, bytes)?;
    format!(in heap; "{name}: at {start}, length {len}: {digits}")
}

/// `refused NUMBER telegram: words`
fn refused(heap: Global, fault: TelegramFault) -> Result<String, AllocError>
    ensures { IfOk result (λ s. string_bytes s ≡ refused_fields fault) }
{
    format!(in heap; "refused {} telegram: {fault}", fault.number())
}

/// The parts of a telegram that was read.
fn parts_text(heap: Global, parts: Fields<'_>, header: &Header<'_>) -> Result<String, AllocError>
    ensures { IfOk result (λ s. string_bytes s ≡ text_of_parts (parts_of parts.entry) parts.entry.places (heading header.now)) }
{
    let head = head_text(heap, header)?;
    let note = part_text(heap, "note", HEADER_START + MIN_HEADER, header.note)?;
    let tag = part_text(heap, "tag", parts.places.tag.start, parts.tag)?;
    let ciphertext = part_text(
        heap,
        "ciphertext",
        parts.places.ciphertext.start,
        parts.ciphertext,
    )?;
    format!(in heap; "{head}\n{note}\n{tag}\n{ciphertext}")
}

/// The parts and the header of a telegram.
fn read(telegram: &[u8]) -> Result<(Fields<'_>, Header<'_>), TelegramFault>
    ensures { MatchResult result (λ r. fields_answer telegram.now ≡ text_of_parts (parts_of r.0) r.0.places (heading r.1)) (λ fault. fields_answer telegram.now ≡ refused_fields fault) }
{
    let parts = fields(telegram)?;
    let header = Header::read(parts.header)?;
    Ok((parts, header))
}

/// The parts of a telegram in words, one to a line, or why it is none. An error is want of memory.
pub fn answer_fields(heap: Global, telegram: &[u8]) -> Result<String, AllocError>
    ensures { IfOk result (λ s. string_bytes s ≡ fields_answer telegram.now) }
{
    match read(telegram) {
        Ok((parts, header)) => parts_text(heap, parts, &header),
        Err(fault) => refused(heap, fault),
    }
}
