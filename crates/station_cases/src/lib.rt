// A station, run: the known telegram, both ends of a line, what is reported, and refusals with what they leave.
#![tactic(auto)]

#[cfg(test)]
mod tests {
    use cipher::Cipher;
    use cipher::bench::Bench;
    use multiplier::{Multiplier, Table};
    use seal::fault::SealFault;
    use station::fault::StationFault;
    use station::parts::Station;
    use std::test::Fail;
    use telegram::fault::TelegramFault;

    const KEY: [u8; 16] = [0, 0, 0, 0, 0, 0, 0, 0, 0, 0, 0, 0, 0, 0, 0, 2];

    const MESSAGE: [u8; 16] = [0, 0, 0, 0, 0, 0, 0, 0, 0, 0, 0, 0, 0, 0, 0, 3];

    // one line, which cases has too: the tests share no crate
    fn is_zero(bytes: &[u8]) -> bool {
        bytes.iter().all(|b| *b == 0)
    }

    fn started(own: u8, allowance: u64) -> Result<Station<Bench, Table>, StationFault> {
        let mut station = Station::new(Bench::new(), Table::new());
        station.start(own, allowance, &KEY)?;
        Ok(station)
    }

    #[test]
    fn the_known_telegram_is_sealed(rt: HostRuntime) -> Result<(), Fail> {
        let mut station = started(3, 1000)?;
        let mut out = [0xee; 60];
        assert_eq!(rt; station.seal(&[0; 10], &MESSAGE, &mut out)?, 53);
        let expected = [
            1, 0, 16, 3, 0, 0, 0, 1, 0, 0, 0, 0, 0, 0, 0, 0, 0, 0, 0, 0, 16, 0x0a, 0x6c, 0, 0, 0,
            0, 0, 0, 2, 0x1c, 0, 0, 0, 0, 0, 0x1a, 0x0a, 0x6c, 0, 0, 0, 0, 0, 0, 2, 0x1c, 0, 0, 0,
            0, 0, 0x18,
        ];
        assert_eq!(rt; &out[0..53], expected.as_slice());
        assert_eq!(rt;
            &out[53..60],
            [0xee; 7].as_slice(),
            "what stands behind stays"
        );
        Ok(())
    }

    #[test]
    fn both_ends_of_a_line(rt: HostRuntime) -> Result<(), Fail> {
        let mut gauge = started(3, 1000)?;
        let mut control = started(0, 1000)?;
        let mut buffer = [0; 53];
        gauge.seal(&[0; 10], &MESSAGE, &mut buffer)?;
        let mut again = buffer;
        let mut damaged = buffer;
        let opened = control.open(&mut buffer)?;
        assert_eq!(rt; opened.gauge, 3);
        assert_eq!(rt; opened.serial, 1);
        assert_eq!(rt; opened.message.start, 37);
        assert_eq!(rt; &buffer[37..53], MESSAGE.as_slice());
        assert!(rt; control.open(&mut again).err() == Some(StationFault::Stale));
        assert!(rt; is_zero(&again), "a refused buffer is cleared");
        damaged[7] = 2;
        assert!(rt;
            control.open(&mut damaged).err() == Some(StationFault::Seal(SealFault::Mismatch))
        );
        assert!(rt; is_zero(&damaged));
        Ok(())
    }

    #[test]
    fn a_key_of_allowance_4_serves_one_call(rt: HostRuntime) -> Result<(), Fail> {
        let mut station = started(3, 4)?;
        let mut out = [0; 43];
        assert_eq!(rt; station.seal(&[], &MESSAGE, &mut out)?, 43);
        let before = out;
        assert!(rt; station.seal(&[], &[], &mut out).err() == Some(StationFault::Worn));
        assert_eq!(rt; out, before, "a refused output stays");
        Ok(())
    }

    #[test]
    fn refusals_before_the_key(rt: HostRuntime) -> Result<(), Fail> {
        let mut station = Station::new(Bench::new(), Table::new());
        let mut buffer = [2; 8];
        assert!(rt; station.open(&mut buffer).err() == Some(StationFault::NotStarted));
        assert!(rt; is_zero(&buffer));
        assert!(rt; station.start(16, 4, &KEY).err() == Some(StationFault::StartRange));
        assert!(rt; station.start(15, 3, &KEY).err() == Some(StationFault::StartRange));
        station.start(15, 4, &KEY)?;
        assert!(rt; station.start(15, 4, &KEY).err() == Some(StationFault::AlreadyStarted));
        let mut buffer = [2; 8];
        assert!(rt;
            station.open(&mut buffer).err() == Some(StationFault::Telegram(TelegramFault::Version))
        );
        assert!(rt; is_zero(&buffer));
        let mut out = [0; 42];
        assert!(rt; station.seal(&[], &MESSAGE, &mut out).err() == Some(StationFault::OutputShort));
        Ok(())
    }

    #[test]
    fn the_gauges_heard_are_reported(rt: HostRuntime) -> Result<(), Fail> {
        let mut gauge = started(3, 1000)?;
        let mut control = started(0, 1000)?;
        let mut out = [0xee; 6];
        assert_eq!(rt; control.report(&mut out)?.count, 0);
        let mut buffer = [0; 43];
        gauge.seal(&[], &MESSAGE, &mut buffer)?;
        control.open(&mut buffer)?;
        let report = control.report(&mut out)?;
        assert_eq!(rt; report.count, 1);
        assert_eq!(rt; report.calls, 1);
        assert_eq!(rt; out, [3, 0, 0, 0, 1, 0xee]);
        assert!(rt; control.report(&mut out[0..4]).err() == Some(StationFault::OutputShort));
        Ok(())
    }
}
