// Why a station refuses a call. What a layer below refuses is passed up whole.
ghost use Rattle.station.specs.Answers.{layer_name, refusal, words};
ghost use Rattle.station.specs.declared.fault.StationFault.TheVariants.{Seal, Telegram};
ghost use Rattle.std.specs.Prelude.{◌≡◌, Some};

use seal::fault::SealFault;
use std::error::Error;
use std::fmt;
use telegram::fault::TelegramFault;

#[derive(Clone, Copy, PartialEq, Eq, Debug)]
pub enum StationFault {
    Telegram(TelegramFault),
    Seal(SealFault),
    NotStarted,
    AlreadyStarted,
    /// The own gauge or the allowance is out of its range, or the key is not as long as a key is.
    StartRange,
    /// The output is shorter than what is to be written.
    OutputShort,
    /// The kind is not the call's, or the message of a key telegram not as long as a key is.
    Kind,
    /// The gauge is above 15, or the own one.
    Gauge,
    ChangePending,
    /// The last serial has been given.
    SerialsGiven,
    /// The serial is not above the gauge's last.
    Stale,
    /// The key's wear would pass the allowance.
    Worn,
    /// The order does not match the pending change.
    OtherOrder,
}

impl StationFault {
    /// The number that the outside knows the fault by.
    pub fn number(self) -> u32
        ensures { result ≡ refusal self }
    {
        // no discriminants: two variants hold a lower layer's fault, whose number is its own
        match self {
            StationFault::Telegram(fault) => fault.number(),
            StationFault::Seal(fault) => fault.number(),
            StationFault::NotStarted => 1,
            StationFault::AlreadyStarted => 2,
            StationFault::StartRange => 3,
            StationFault::OutputShort => 5,
            StationFault::Kind => 8,
            StationFault::Gauge => 9,
            StationFault::ChangePending => 10,
            StationFault::SerialsGiven => 11,
            StationFault::Stale => 12,
            StationFault::Worn => 13,
            StationFault::OtherOrder => 15,
        }
    }

    /// The layer that refuses.
    pub fn layer(self) -> &'static str
        ensures { result.now ≡ layer_name self }
    {
        match self {
            StationFault::Telegram(_) => "telegram",
            StationFault::Seal(_) => "seal",
            _ => "station",
        }
    }

    /// What is wrong, in words. They have a clause of their own; `Display` is one line over them.
    pub fn words(self) -> &'static str
        ensures { result.now ≡ words self }
    {
        match self {
            StationFault::Telegram(fault) => fault.words(),
            StationFault::Seal(fault) => fault.words(),
            StationFault::NotStarted => "the station is not started",
            StationFault::AlreadyStarted => "the station is started already",
            StationFault::StartRange =>
                "the own gauge, the allowance or the key's length is out of range",
            StationFault::OutputShort => "the output is shorter than what is to be written",
            StationFault::Kind => "the kind is not the call's, or the message is no key",
            StationFault::Gauge => "the gauge is above 15, or the own one",
            StationFault::ChangePending => "a key change is pending",
            StationFault::SerialsGiven => "every serial has been given",
            StationFault::Stale => "the serial is not above the gauge's last",
            StationFault::Worn => "the key's wear would pass the allowance",
            StationFault::OtherOrder => "the order does not match the pending change",
        }
    }
}

impl From<TelegramFault> for StationFault {
    ghost from_gives = { λ fault r. r ≡ Telegram fault };

    fn from(below: TelegramFault) -> StationFault {
        StationFault::Telegram(below)
    }
}

impl From<SealFault> for StationFault {
    ghost from_gives = { λ fault r. r ≡ Seal fault };

    fn from(below: SealFault) -> StationFault {
        StationFault::Seal(below)
    }
}

impl fmt::Display for StationFault {
    ghost output = { λ fault. Some (words fault) };

    fn fmt<W: fmt::Write>(&self, f: &mut fmt::Formatter<W>) -> fmt::Result {
        f.write_str(self.words())
    }
}

impl Error for StationFault {}
