//! The lines that messages to wrap and to unwrap are written on: bytes in hex, fields at blanks.
#![tactic(auto)]

pub mod fault;
pub mod hex;
pub mod request;
mod split;

#[cfg(test)]
mod tests {
    use crate::fault::Field;
    use crate::hex;
    use crate::request::{Request, UnwrapRequest, WrapRequest};
    use std::test::Fail;

    #[test]
    fn a_line_is_read(rt: HostRuntime) -> Result<(), Fail> {
        let asked = WrapRequest::parse(rt.alloc(), b"009A  absent\t.\r")?;
        assert_eq!(rt; asked.key.as_slice(), [0, 0x9a].as_slice());
        assert!(rt; asked.header.is_none() && asked.message.is_empty());
        Ok(())
    }

    #[test]
    fn a_fault_is_told(rt: HostRuntime) -> Result<(), Fail> {
        let Err(fault) = UnwrapRequest::parse(rt.alloc(), b"00 123 00 00") else {
            return Err(Fail::new("three digits were taken for bytes"));
        };
        let told = fault.to_string(rt.alloc())?;
        assert_eq!(rt; told.as_str(), "the header has an odd number of hex digits");
        Ok(())
    }

    #[test]
    fn bytes_are_written(rt: HostRuntime) -> Result<(), Fail> {
        let bytes = hex::decode(rt.alloc(), Field::Key, b"00fF7a")?;
        assert_eq!(rt; hex::encode(rt.alloc(), &bytes)?.as_str(), "00ff7a");
        Ok(())
    }

    #[test]
    fn an_array_is_read(rt: HostRuntime) -> Result<(), Fail> {
        assert_eq!(rt;
            hex::decode_array::<2>(rt.alloc(), Field::Tag, b"00fF")?,
            Some([0, 0xff])
        );
        assert_eq!(rt;
            hex::decode_array::<2>(rt.alloc(), Field::Tag, b"00fF7a")?,
            None
        );
        Ok(())
    }
}
