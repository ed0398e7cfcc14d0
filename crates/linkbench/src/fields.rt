// A telegram's parts, in words.
use anyhow::anyhow;
use lines::fault::{Field, LineFault};
use lines::hex;
use telegram_words::answer_fields;

pub(crate) fn show(rt: &HostRuntime, digits: &str) -> anyhow::Result<()> {
    match hex::decode(rt.alloc(), Field::Message, digits.as_bytes()) {
        Ok(telegram) => {
            let told = answer_fields(rt.alloc(), telegram.as_slice())?;
            println!(rt; "{told}")?;
            Ok(())
        }
        Err(LineFault::OddDigits(_)) => {
            Err(anyhow!("the telegram has an odd number of hex digits"))
        }
        Err(LineFault::NotHex(_)) => Err(anyhow!("the telegram is not hex")),
        Err(fault) => Err(anyhow!(fault.to_string(rt.alloc())?)),
    }
}
