// Wrap and unwrap, run: the worked cases, the sizes at the limits, and what each refusal leaves.
#![tactic(auto)]

#[cfg(test)]
mod tests {
    use block::Block;
    use cipher::Cipher;
    use cipher::bench::Bench;
    use cipher::whitened::Whitened;
    use mode::hbs::Hbs;
    use mode::sealing;
    use multiplier::{Doubling, Multiplier, Table};
    use seal::fault::SealFault;
    use seal::lent;
    use seal::watch::Watch;
    use seal::wrapping::{unwrap, wrap};
    use std::alloc::{AllocError, Global};
    use std::process::Abort;
    use std::test::Fail;

    // The sixteen bytes of the block that holds `n`.
    fn block(n: u64) -> [u8; 16] {
        Block::from(n).to_bytes()
    }

    // 0x80, thirteen zeros, and two bytes.
    fn led_by_80(high: u8, low: u8) -> [u8; 16] {
        [0x80, 0, 0, 0, 0, 0, 0, 0, 0, 0, 0, 0, 0, 0, high, low]
    }

    // `n` bytes, each unlike its neighbours.
    fn ramp(heap: Global, n: usize) -> Result<Vec<u8>, AllocError> {
        (0..n).map(|i| (i % 251) as u8).collect(heap)
    }

    // A header of `n` bytes, or none.
    fn header_of(heap: Global, n: Option<usize>) -> Result<Option<Vec<u8>>, AllocError> {
        n.map(|n| ramp(heap, n)).transpose()
    }

    // one line, which station_cases has too: the tests share no crate
    fn is_zero(bytes: &[u8]) -> bool {
        bytes.iter().all(|b| *b == 0)
    }

    fn seal(
        key: &[u8],
        header: Option<&[u8]>,
        tag: &mut [u8],
        text: &mut [u8],
    ) -> Result<(), SealFault> {
        let mut hbs = Hbs::new(Bench::new(), Doubling::new());
        wrap(&mut hbs, key, header, tag, text)
    }

    fn open(
        key: &[u8],
        header: Option<&[u8]>,
        tag: &[u8],
        text: &mut [u8],
    ) -> Result<(), SealFault> {
        let mut hbs = Hbs::new(Bench::new(), Doubling::new());
        unwrap(&mut hbs, key, header, tag, text)
    }

    // That a message seals to this tag and this ciphertext, and opens again.
    fn worked(
        rt: &impl Abort,
        key: [u8; 16],
        header: Option<&[u8]>,
        mut text: Vec<u8>,
        tag: [u8; 16],
        ciphertext: &[u8],
    ) -> Result<(), Fail> {
        let message = text.clone()?;
        let mut written = [0xff; 16];
        seal(&key, header, &mut written, text.as_mut_slice())?;
        assert_eq!(rt; written.as_slice(), tag.as_slice(), "the tag");
        assert_eq!(rt; text.as_slice(), ciphertext, "the ciphertext");
        open(&key, header, &tag, text.as_mut_slice())?;
        assert_eq!(rt; text.as_slice(), message.as_slice(), "the message opened");
        Ok(())
    }

    #[test]
    fn with_a_header(rt: HostRuntime) -> Result<(), Fail> {
        let header = block(1);
        worked(
            &rt,
            block(2),
            Some(&header),
            block(3).to_vec(rt.alloc())?,
            block(30),
            &block(28),
        )
    }

    #[test]
    fn with_no_header(rt: HostRuntime) -> Result<(), Fail> {
        worked(
            &rt,
            block(2),
            None,
            block(3).to_vec(rt.alloc())?,
            block(10),
            &block(8),
        )
    }

    #[test]
    fn with_an_empty_header(rt: HostRuntime) -> Result<(), Fail> {
        let tag = led_by_80(0x20, 0x4b);
        let ciphertext = led_by_80(0x20, 0x49);
        worked(
            &rt,
            block(2),
            Some(&[]),
            block(3).to_vec(rt.alloc())?,
            tag,
            &ciphertext,
        )
    }

    #[test]
    fn with_no_message(rt: HostRuntime) -> Result<(), Fail> {
        let header = block(1);
        worked(
            &rt,
            block(2),
            Some(&header),
            Vec::new(rt.alloc()),
            block(0x4013),
            &[],
        )
    }

    #[test]
    fn with_the_zero_key(rt: HostRuntime) -> Result<(), Fail> {
        let mut stream = block(1).to_vec(rt.alloc())?;
        stream.extend_from_slice(&block(2))?;
        worked(
            &rt,
            block(0),
            None,
            [0; 32].to_vec(rt.alloc())?,
            block(0),
            stream.as_slice(),
        )
    }

    #[test]
    fn damage_is_refused_and_cleared(rt: HostRuntime) {
        let header = block(1);
        let mut text = block(29);
        assert_eq!(rt;
            open(&block(2), Some(&header), &block(30), &mut text),
            Err(SealFault::Mismatch)
        );
        assert!(rt; is_zero(&text));
    }

    // That a message of `n` bytes goes there and back, and is refused and cleared under a damaged tag.
    fn there_and_back(
        rt: &impl Abort,
        heap: Global,
        header: Option<usize>,
        n: usize,
    ) -> Result<(), Fail> {
        let header = header_of(heap, header)?;
        let message = ramp(heap, n)?;
        let mut text = message.clone()?;
        let mut tag = [0; 16];
        seal(&block(5), header.as_deref(), &mut tag, text.as_mut_slice())?;
        let mut damaged = text.clone()?;
        open(&block(5), header.as_deref(), &tag, text.as_mut_slice())?;
        assert_eq!(rt; text.as_slice(), message.as_slice(), "the message opened");
        tag[7] ^= 0x10;
        let refused = open(&block(5), header.as_deref(), &tag, damaged.as_mut_slice());
        assert_eq!(rt; refused, Err(SealFault::Mismatch));
        assert!(rt; is_zero(damaged.as_slice()), "the buffer is cleared");
        Ok(())
    }

    // That these sizes are refused, which leaves what was to be sealed, and clears what was to be opened.
    fn out_of_size(
        rt: &impl Abort,
        heap: Global,
        what: &str,
        key: usize,
        header: Option<usize>,
        tag: usize,
        n: usize,
    ) -> Result<(), Fail> {
        let key = ramp(heap, key)?;
        let header = header_of(heap, header)?;
        let mut tag = ramp(heap, tag)?;
        let mut text = ramp(heap, n)?;
        let refused = seal(
            key.as_slice(),
            header.as_deref(),
            tag.as_mut_slice(),
            text.as_mut_slice(),
        );
        assert_eq!(rt; refused, Err(SealFault::Size), "{what}: of wrap");
        assert_eq!(rt;
            tag.as_slice(),
            ramp(heap, tag.len())?.as_slice(),
            "{what}: the tag buffer stays"
        );
        assert_eq!(rt;
            text.as_slice(),
            ramp(heap, n)?.as_slice(),
            "{what}: the text stays"
        );
        let refused = open(
            key.as_slice(),
            header.as_deref(),
            tag.as_slice(),
            text.as_mut_slice(),
        );
        assert_eq!(rt; refused, Err(SealFault::Size), "{what}: of unwrap");
        assert!(rt; is_zero(text.as_slice()), "{what}: the text is cleared");
        Ok(())
    }

    #[test]
    fn every_length_of_text(rt: HostRuntime) -> Result<(), Fail> {
        for n in [0, 1, 15, 16, 17, 4096] {
            there_and_back(&rt, rt.alloc(), Some(6), n)?;
        }
        out_of_size(&rt, rt.alloc(), "the text", 16, Some(6), 16, 4097)
    }

    #[test]
    fn every_length_of_header(rt: HostRuntime) -> Result<(), Fail> {
        for n in [None, Some(0), Some(1), Some(16), Some(1024)] {
            there_and_back(&rt, rt.alloc(), n, 33)?;
        }
        out_of_size(&rt, rt.alloc(), "the header", 16, Some(1025), 16, 33)
    }

    #[test]
    fn wrong_lengths_of_key_and_tag(rt: HostRuntime) -> Result<(), Fail> {
        for n in [0, 1, 15, 17, 32] {
            out_of_size(&rt, rt.alloc(), "the key", n, None, 16, 20)?;
            out_of_size(&rt, rt.alloc(), "the tag buffer", 16, None, n, 20)?;
        }
        Ok(())
    }

    #[test]
    fn a_pile_of_two_whitenings(rt: HostRuntime) -> Result<(), Fail> {
        let inner = Whitened::new(Bench::new(), Block::from(0x10), Block::from(0x20));
        let mut pile = Whitened::new(inner, Block::from(1), Block::from(2));
        assert_eq!(rt; pile.load(&block(5)), Ok(()));
        assert_eq!(rt;
            pile.encipher(Block::ZERO).to_bytes(),
            block(5 ^ 0x10 ^ 0x20 ^ 1 ^ 2)
        );
        assert_eq!(rt;
            pile.decipher(Block::from(5 ^ 0x10 ^ 0x20 ^ 1 ^ 2)),
            Block::ZERO
        );
        let header = block(1);
        let mut tag = [0; 16];
        let mut text = block(3);
        let mut hbs = Hbs::new(pile, Table::new());
        wrap(&mut hbs, &block(2), Some(&header), &mut tag, &mut text)?;
        assert_ne!(rt; text, block(3));
        hbs.multiplier = Table::new();
        unwrap(&mut hbs, &block(2), Some(&header), &tag, &mut text)?;
        assert_eq!(rt; text, block(3));
        Ok(())
    }

    // One pile, which is not `Copy`, lent to one multiplier and then to another.
    #[test]
    fn a_pile_lent_to_two_multipliers(rt: HostRuntime) -> Result<(), Fail> {
        let inner = Whitened::new(Bench::new(), Block::from(0x10), Block::from(0x20));
        let mut pile = Whitened::new(inner, Block::from(1), Block::from(2));
        let mut doubling = Doubling::new();
        let mut table = Table::new();
        let header = block(1);
        let mut tag = [0; 16];
        let mut text = block(3);
        lent::wrap(
            &mut pile,
            &mut doubling,
            &block(2),
            Some(&header),
            &mut tag,
            &mut text,
        )?;
        assert_ne!(rt; text, block(3));
        lent::unwrap(
            &mut pile,
            &mut table,
            &block(2),
            Some(&header),
            &tag,
            &mut text,
        )?;
        assert_eq!(rt; text, block(3));
        let sealed = sealing::seal(&pile, &doubling, Some(&header), &mut text);
        assert_eq!(rt; sealed.to_bytes(), tag);
        assert_eq!(rt;
            sealing::open(&pile, &table, Some(&header), sealed, &mut text),
            Ok(())
        );
        assert_eq!(rt; text, block(3));
        Ok(())
    }

    // Bytes of which the last sixteen are sealed, opened there under a cipher that is lent.
    #[test]
    fn a_part_is_opened(rt: HostRuntime) -> Result<(), Fail> {
        let cipher = Bench::new();
        let header = block(1);
        let mut sealed = block(3);
        let tag = sealing::seal(&cipher, &Doubling::new(), Some(&header), &mut sealed);
        let mut framed = [0; 20];
        framed[4..].copy_from_slice(&sealed);
        let mut watch = Watch {
            bytes: &mut framed,
            released: false,
        };
        watch.open_part_lent(&cipher, &Table::new(), &header, tag, 4, 20)?;
        assert!(rt; watch.contents().ends_with(&block(3)));
        Ok(())
    }
}
