//! What lines that ask to wrap and to unwrap are answered.
#![tactic(auto)]

pub mod lent;
mod text;
pub mod wrapping;

#[cfg(test)]
mod tests {
    use crate::wrapping::{answer, answer_unwrap, answer_wrap};
    use cipher::bench::Bench;
    use lines::request::{UnwrapRequest, WrapRequest};
    use mode::hbs::Hbs;
    use multiplier::{Doubling, Multiplier};
    use std::test::Fail;

    #[test]
    fn a_message_is_wrapped(rt: HostRuntime) -> Result<(), Fail> {
        let line =
            b"00000000000000000000000000000002 00000000000000000000000000000001 00000000000000000000000000000003";
        let mut hbs = Hbs::new(Bench::new(), Doubling::new());
        let told = answer::<WrapRequest, _, _>(rt.alloc(), &mut hbs, 1, line)?;
        assert_eq!(rt;
            told.as_str(),
            "accepted 0000000000000000000000000000001e 0000000000000000000000000000001c"
        );
        Ok(())
    }

    #[test]
    fn another_tag_is_refused(rt: HostRuntime) -> Result<(), Fail> {
        let line =
            b"00000000000000000000000000000002 00000000000000000000000000000001 0000000000000000000000000000001f 0000000000000000000000000000001c";
        let mut hbs = Hbs::new(Bench::new(), Doubling::new());
        let told = answer::<UnwrapRequest, _, _>(rt.alloc(), &mut hbs, 1, line)?;
        assert_eq!(rt;
            told.as_str(),
            "refused 14 seal: tag and text do not belong together under this key and header"
        );
        Ok(())
    }

    #[test]
    fn a_cipher_is_lent(rt: HostRuntime) -> Result<(), Fail> {
        let mut cipher = Bench::new();
        let line =
            b"00000000000000000000000000000002 00000000000000000000000000000001 00000000000000000000000000000003";
        let told = answer_wrap(rt.alloc(), &mut cipher, &mut Doubling::new(), 1, line)?;
        assert_eq!(rt;
            told.as_str(),
            "accepted 0000000000000000000000000000001e 0000000000000000000000000000001c"
        );
        let line =
            b"00000000000000000000000000000002 00000000000000000000000000000001 0000000000000000000000000000001e 0000000000000000000000000000001c";
        let told = answer_unwrap(rt.alloc(), &mut cipher, &mut Doubling::new(), 1, line)?;
        assert_eq!(rt; told.as_str(), "accepted 00000000000000000000000000000003");
        Ok(())
    }
}
