//! The fields of a line, which stand between blanks.

ghost use Rattle.std.specs.Prelude.{◌≡◌, ◌<◌, [], ◌∷◌, length, MatchResult};
ghost use Rattle.lines.specs.declared.fault.LineFault.TheVariants.{TooFewFields, TooManyFields};
ghost use Rattle.lines.specs.Blanks.{blank, fields};

use crate::fault::{Form, LineFault};

/// Whether a byte parts fields: a space, a tab or a carriage return.
fn is_blank(c: u8) -> bool
    ensures { result ≡ blank c }
{
    matches!(c, b' ' | b'\t' | b'\r')
}

/// The first field of a text, and what stands after it.
pub(crate) fn next_field(form: Form, text: &[u8]) -> Result<(&[u8], &[u8]), LineFault>
    ensures { MatchResult result (λ p. fields text.now ≡ p.0.now ∷ fields p.1.now) (λ f. (f ≡ TooFewFields form) × (fields text.now ≡ [])) }
{
    let Some(start) = text.iter().position(|c| !is_blank(*c)) else {
        return Err(LineFault::TooFewFields(form));
    };
    let (_, field) = text.split_at(start);
    let end = field
        .iter()
        .position(|c| is_blank(*c))
        .unwrap_or(field.len());
    Ok(field.split_at(end))
}

/// That a text has no field.
pub(crate) fn no_field(form: Form, text: &[u8]) -> Result<(), LineFault>
    ensures { MatchResult result (λ _. fields text.now ≡ []) (λ f. (f ≡ TooManyFields form) × (0 < length (fields text.now))) }
{
    if text.iter().all(|c| is_blank(*c)) {
        Ok(())
    } else {
        Err(LineFault::TooManyFields(form))
    }
}
