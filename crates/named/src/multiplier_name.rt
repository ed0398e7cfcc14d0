// The names of the multipliers.
ghost use Rattle.named.specs.Names.{Named, multiplier_text};
ghost use Rattle.std.specs.Result.{result_ok};

use crate::unknown_name::UnknownName;
use std::str::FromStr;

#[derive(Clone, Copy, PartialEq, Eq, Debug)]
pub enum MultiplierName {
    Doubling,
    Table,
}

impl FromStr for MultiplierName {
    type Err = UnknownName;

    ghost from_str_gives = { λ text r. Named multiplier_text text (result_ok r) };

    fn from_str(text: &str) -> Result<MultiplierName, UnknownName> {
        match text {
            "doubling" => Ok(MultiplierName::Doubling),
            "table" => Ok(MultiplierName::Table),
            _ => Err(UnknownName),
        }
    }
}
