// A guard over bytes that are being opened.
ghost use Rattle.block.specs.Num.{num};
ghost use Rattle.mode.specs.Keys.{keys};
ghost use Rattle.mode.specs.Sealing.{opened_by, opened_with, pair, streamed_with};
ghost use Rattle.mode.specs.Stream.{streamed};
ghost use Rattle.seal.specs.Sizes.{message_sized};
ghost use Rattle.seal.specs.Watching.{SameBuffer};
ghost use Rattle.seal.specs.Wrapping.{cleared, part_mapped, part_opened};
ghost use Rattle.std.specs.Option.{option_copied};
ghost use Rattle.std.specs.List.{between};
ghost use Rattle.seal.specs.declared.fault.SealFault.TheVariants.{Mismatch};
ghost use Rattle.std.specs.Prelude.{◌≡◌, true, length, if◌then◌else◌, is_ok, IfErr, Some, None};

use crate::fault::SealFault;
use crate::sizes::sizes_fit;
use block::Block;
use cipher::Cipher;
use mode::hbs::Hbs;
use mode::{mismatch, sealing};
use multiplier::Multiplier;

/// Bytes that are cleared when the watch over them ends, unless acceptance released them.
pub struct Watch<'a> {
    pub bytes: &'a mut [u8],
    // a flag beside the bytes: the guard's own end has to say what it leaves, released or not
    pub released: bool,
}

impl Drop for Watch<'_> {
    fn drop(self)
        ensures { self.exit.0.now ≡ (if self.entry.released then self.entry.bytes.now else cleared self.entry.bytes.now) }
    {
        if !self.released {
            self.bytes.fill(0);
        }
        let Watch {
            bytes: _,
            released: _,
        } = self;
    }
}

impl Watch<'_> {
    /// Whether the bytes and a header are of sizes that are taken.
    pub(crate) fn fits(&self, header: Option<&[u8]>) -> bool
        ensures { result ≡ message_sized (option_copied header.entry) self.now.bytes.now }
    {
        sizes_fit(header, self.bytes)
    }

    /// Opens the bytes where they stand, and releases them if they are authentic; else they are released no more.
    pub(crate) fn open<C: Cipher, M: Multiplier>(
        &mut self,
        cipher: &C,
        multiplier: &M,
        header: Option<&[u8]>,
        tag: Block,
    ) -> Result<(), mismatch::Mismatch>
        ensures opens { (if is_ok result then Some self.new.bytes.now else None) ≡ opened_by (M.element multiplier.now) ((C.scheme cipher.now).enc (C.loaded cipher.now)) ((C.scheme cipher.now).dec (C.loaded cipher.now)) (option_copied header.entry) (pair (num tag) self.old.bytes.now) }
        ensures releases { self.new.released ≡ is_ok result }
        ensures same { SameBuffer self.old self.new }
    {
        self.released = false;
        sealing::open(cipher, multiplier, header, tag, self.bytes)?;
        self.release();
        Ok(())
    }

    /// What stands under the watch.
    pub fn contents(&self) -> &[u8]
        ensures { result.now ≡ self.now.bytes.now }
    {
        self.bytes
    }

    /// Opens the bytes from `start` up to `end` where they stand. They are under the watch still, and so is what stands
    /// there where they are not authentic, which `Mismatch` refuses. It refuses a place that is not within the bytes too,
    /// which alters nothing.
    pub fn open_part_lent<C: Cipher, M: Multiplier>(
        &mut self,
        cipher: &C,
        multiplier: &M,
        header: &[u8],
        tag: Block,
        start: usize,
        end: usize,
    ) -> Result<(), SealFault>
        ensures opens { (if is_ok result then Some self.new.bytes.now else None) ≡ part_opened start end (opened_by (M.element multiplier.now) ((C.scheme cipher.now).enc (C.loaded cipher.now)) ((C.scheme cipher.now).dec (C.loaded cipher.now)) (Some header.now) (pair (num tag) (between start end self.old.bytes.now))) self.old.bytes.now }
        ensures leaves { self.new.bytes.now ≡ part_mapped start end (streamed ((C.scheme cipher.now).enc (C.loaded cipher.now)) ((C.scheme cipher.now).dec (C.loaded cipher.now) (num tag))) self.old.bytes.now }
        ensures fault { IfErr result (λ fault. fault ≡ Mismatch) }
        ensures len { length self.new.bytes.now ≡ length self.old.bytes.now }
        ensures holds { self.new.released ≡ self.old.released }
        ensures same { SameBuffer self.old self.new }
    {
        if start > end || end > self.bytes.len() {
            return Err(SealFault::Mismatch);
        }
        sealing::open(
            cipher,
            multiplier,
            Some(header),
            tag,
            &mut self.bytes[start..end],
        )?;
        Ok(())
    }

    /// The same under a cipher beside its multiplier.
    pub fn open_part<C: Cipher, M: Multiplier>(
        &mut self,
        hbs: &Hbs<C, M>,
        header: &[u8],
        tag: Block,
        start: usize,
        end: usize,
    ) -> Result<(), SealFault>
        ensures opens { (if is_ok result then Some self.new.bytes.now else None) ≡ part_opened start end (opened_with (keys C.Cipher M.Multiplier hbs.now) (Some header.now) (pair (num tag) (between start end self.old.bytes.now))) self.old.bytes.now }
        ensures leaves { self.new.bytes.now ≡ part_mapped start end (streamed_with (keys C.Cipher M.Multiplier hbs.now) (num tag)) self.old.bytes.now }
        ensures fault { IfErr result (λ fault. fault ≡ Mismatch) }
        ensures len { length self.new.bytes.now ≡ length self.old.bytes.now }
        ensures holds { self.new.released ≡ self.old.released }
        ensures same { SameBuffer self.old self.new }
    {
        self.open_part_lent(&hbs.cipher, &hbs.multiplier, header, tag, start, end)
    }

    /// Releases the bytes: they stay as they stand.
    pub fn release(&mut self)
        ensures bytes { self.new.bytes.now ≡ self.old.bytes.now }
        ensures releases { self.new.released ≡ true }
        ensures same { SameBuffer self.old self.new }
    {
        self.released = true;
    }
}
