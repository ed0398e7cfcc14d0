//! What a line asks for.

ghost use Rattle.std.specs.Prelude.{List, ℕ, Result, vec_items};
ghost use Rattle.std.specs.Option.{option_map};
ghost use Rattle.lines.specs.declared.fault.LineFault.{LineFault};
ghost use Rattle.lines.specs.Answers.{Answers};
ghost use Rattle.lines.specs.Lines.{ToWrap, ToUnwrap, to_wrap, to_unwrap, header_reading, wrap_line, unwrap_line};

use crate::fault::{Field, Form, LineFault};
use crate::hex;
use crate::split::{next_field, no_field};
use std::alloc::Global;

/// What a line can ask for.
pub trait Request: Sized {
    /// What is asked, as plain bytes.
    ghost Asked: { Type 0 };

    ghost asked: { Self → Asked };

    /// What a line of this form asks for, or what is wrong with it.
    ghost reading: { List ℕ → Result Asked LineFault };

    /// Reads a line. The number of fields comes first, then the fields in their order.
    fn parse(heap: Global, line: &[u8]) -> Result<Self, LineFault>
        ensures { Answers asked result (reading line.now) };
}

/// A message to wrap, with its key and its header, which may be absent.
#[derive(Drop)]
pub struct WrapRequest {
    pub key: Vec<u8>,
    pub header: Option<Vec<u8>>,
    pub message: Vec<u8>,
}

/// A ciphertext to unwrap, with its key, its header, which may be absent, and its tag.
#[derive(Drop)]
pub struct UnwrapRequest {
    pub key: Vec<u8>,
    pub header: Option<Vec<u8>>,
    pub tag: Vec<u8>,
    pub ciphertext: Vec<u8>,
}

/// The line `KEY HEADER MESSAGE`.
#[tactic(auto, using(crate::proofs::Answering::wrap_fourth))]
impl Request for WrapRequest {
    ghost Asked = { ToWrap };

    ghost asked = { to_wrap };

    ghost reading = { wrap_line };

    fn parse(heap: Global, line: &[u8]) -> Result<WrapRequest, LineFault>
        ensures { Answers to_wrap result (wrap_line line.now) }
    {
        let (key, rest) = next_field(Form::Wrap, line)?;
        let (header, rest) = next_field(Form::Wrap, rest)?;
        let (message, rest) = next_field(Form::Wrap, rest)?;
        no_field(Form::Wrap, rest)?;
        Ok(WrapRequest {
            key: hex::decode(heap, Field::Key, key)?,
            header: decode_header(heap, header)?,
            message: hex::decode(heap, Field::Message, message)?,
        })
    }
}

/// The line `KEY HEADER TAG CIPHERTEXT`.
#[tactic(auto, using(crate::proofs::Answering::unwrap_fifth))]
impl Request for UnwrapRequest {
    ghost Asked = { ToUnwrap };

    ghost asked = { to_unwrap };

    ghost reading = { unwrap_line };

    fn parse(heap: Global, line: &[u8]) -> Result<UnwrapRequest, LineFault>
        ensures { Answers to_unwrap result (unwrap_line line.now) }
    {
        let (key, rest) = next_field(Form::Unwrap, line)?;
        let (header, rest) = next_field(Form::Unwrap, rest)?;
        let (tag, rest) = next_field(Form::Unwrap, rest)?;
        let (ciphertext, rest) = next_field(Form::Unwrap, rest)?;
        no_field(Form::Unwrap, rest)?;
        Ok(UnwrapRequest {
            key: hex::decode(heap, Field::Key, key)?,
            header: decode_header(heap, header)?,
            tag: hex::decode(heap, Field::Tag, tag)?,
            ciphertext: hex::decode(heap, Field::Ciphertext, ciphertext)?,
        })
    }
}

/// The bytes of a header, or none where the field is `absent`.
fn decode_header(heap: Global, text: &[u8]) -> Result<Option<Vec<u8>>, LineFault>
    ensures { Answers (option_map vec_items) result (header_reading text.now) }
{
    if text == b"absent".as_slice() {
        return Ok(None);
    }
    Ok(Some(hex::decode(heap, Field::Header, text)?))
}
