// The names of the ciphers that stand on their own.
ghost use Rattle.named.specs.Names.{Named, cipher_text};
ghost use Rattle.std.specs.Result.{result_ok};

use crate::unknown_name::UnknownName;
use std::str::FromStr;

#[derive(Clone, Copy, PartialEq, Eq, Debug)]
pub enum CipherName {
    Aes128,
    Bench,
    WideXtea,
    WideSpeck64128,
}

impl FromStr for CipherName {
    type Err = UnknownName;

    ghost from_str_gives = { λ text r. Named cipher_text text (result_ok r) };

    fn from_str(text: &str) -> Result<CipherName, UnknownName> {
        match text {
            "aes128" => Ok(CipherName::Aes128),
            "bench" => Ok(CipherName::Bench),
            "wide-xtea" => Ok(CipherName::WideXtea),
            "wide-speck64128" => Ok(CipherName::WideSpeck64128),
            _ => Err(UnknownName),
        }
    }
}
