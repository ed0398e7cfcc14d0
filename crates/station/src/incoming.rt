// A telegram that came in, as far as it is told before it is opened.
ghost use Rattle.station.specs.Incoming.{Told, Untold};
ghost use Rattle.std.specs.Prelude.{◌≡◌, MatchResult};

use block::Block;
use telegram::fault::TelegramFault;
use telegram::header::Header;
use telegram::kind::Kind;
use telegram::parts::Places;
use telegram::reading::fields;
use telegram::sizes::Sizes;

#[derive(Clone, Copy)]
pub(crate) struct Incoming {
    pub(crate) gauge: u8,
    pub(crate) serial: u32,
    pub(crate) kind: Kind,
    pub(crate) sizes: Sizes,
    pub(crate) tag: Block,
    pub(crate) places: Places,
}

impl Incoming {
    pub(crate) fn read(buffer: &[u8]) -> Result<Incoming, TelegramFault>
        ensures { MatchResult result (Told buffer.now) (Untold buffer.now) }
    {
        let parts = fields(buffer)?;
        let told = Header::read(parts.header)?;
        Ok(Incoming {
            gauge: told.gauge,
            serial: told.serial,
            kind: told.kind,
            sizes: Sizes {
                header: parts.header.len(),
                message: parts.ciphertext.len(),
            },
            tag: Block::from_bytes(parts.tag.try_into().unwrap()),
            places: parts.places,
        })
    }
}
