//! What can be wrong with a line.

ghost use Rattle.std.specs.Prelude.{◌≡◌, Some};
ghost use Rattle.lines.specs.declared.fault.LineFault.TheVariants.{NoMemory};
ghost use Rattle.lines.specs.Words.{field_name, form_fields, fault_text};

use std::alloc::{AllocError, AllocFailed};
use std::error::Error;
use std::fmt;

/// A field of a line.
#[derive(Clone, Copy, PartialEq, Eq, Debug)]
pub enum Field {
    Key,
    Header,
    Message,
    Tag,
    Ciphertext,
}

/// What a line asks for, which decides the fields that it has.
#[derive(Clone, Copy, PartialEq, Eq, Debug)]
pub enum Form {
    /// `KEY HEADER MESSAGE`
    Wrap,
    /// `KEY HEADER TAG CIPHERTEXT`
    Unwrap,
}

#[derive(Clone, Copy, PartialEq, Eq, Debug)]
pub enum LineFault {
    TooFewFields(Form),
    TooManyFields(Form),
    /// Hex has two digits to a byte, and the field has one too few.
    OddDigits(Field),
    /// The field has a character that is no hex digit.
    NotHex(Field),
    NoMemory,
}

impl From<AllocError> for LineFault {
    ghost from_gives = { λ _ r. r ≡ NoMemory };

    fn from(_e: AllocError) -> LineFault {
        LineFault::NoMemory
    }
}

// a twin of the last: std says want of memory by two types, and each `?` needs the conversion from its own
impl<T: Drop> From<AllocFailed<T>> for LineFault {
    ghost from_gives = { λ _ r. r ≡ NoMemory };

    fn from(_e: AllocFailed<T>) -> LineFault {
        LineFault::NoMemory
    }
}

impl fmt::Display for Field {
    ghost output = { λ x. Some (field_name x) };

    fn fmt<W: fmt::Write>(&self, f: &mut fmt::Formatter<W>) -> fmt::Result {
        f.write_str(match self {
            Field::Key => "key",
            Field::Header => "header",
            Field::Message => "message",
            Field::Tag => "tag",
            Field::Ciphertext => "ciphertext",
        })
    }
}

impl fmt::Display for Form {
    ghost output = { λ x. Some (form_fields x) };

    fn fmt<W: fmt::Write>(&self, f: &mut fmt::Formatter<W>) -> fmt::Result {
        f.write_str(match self {
            Form::Wrap => "3 wanted: KEY HEADER MESSAGE",
            Form::Unwrap => "4 wanted: KEY HEADER TAG CIPHERTEXT",
        })
    }
}

impl fmt::Display for LineFault {
    ghost output = { λ x. Some (fault_text x) };

    fn fmt<W: fmt::Write>(&self, f: &mut fmt::Formatter<W>) -> fmt::Result {
        match self {
            LineFault::TooFewFields(form) => write!(f, "too few fields, {form}"),
            LineFault::TooManyFields(form) => write!(f, "too many fields, {form}"),
            LineFault::OddDigits(field) => write!(f, "the {field} has an odd number of hex digits"),
            LineFault::NotHex(field) => write!(f, "the {field} is not hex"),
            LineFault::NoMemory => write!(f, "out of memory"),
        }
    }
}

impl Error for LineFault {}
