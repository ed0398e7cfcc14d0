// What a caller may ask for.
use named::unknown_name::UnknownName;
use std::str::FromStr;

#[derive(Clone, Copy, PartialEq, Eq, Debug)]
pub(crate) enum Call {
    Wrap,
    Unwrap,
}

impl FromStr for Call {
    type Err = UnknownName;

    fn from_str(name: &str) -> Result<Call, UnknownName> {
        match name {
            "wrap" => Ok(Call::Wrap),
            "unwrap" => Ok(Call::Unwrap),
            _ => Err(UnknownName),
        }
    }
}
