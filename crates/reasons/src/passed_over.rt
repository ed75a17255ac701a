// Why a reply is passed over: client and tables are then as they were.
ghost use Rattle.std.specs.Prelude.{◌≡◌};
ghost use Rattle.reasons.specs.Numbers.{passed_over_number};

use std::error::Error;
use std::fmt;

// In the order of the checks.
#[derive(Clone, Copy, Debug, PartialEq, Eq, Hash)]
pub enum PassedOver {
    TooShort,
    Header,
    MessageType,
    HardwareAddress,
    TransactionId,
    ServerIdentifier,
    NotAwaited,
    OfferAddress,
    NoMask,
    BrokenMask,
    AckAddress,
}

impl From<PassedOver> for u32 {
    ghost from_gives = { λ reason number. number ≡ passed_over_number reason };

    fn from(reason: PassedOver) -> u32 {
        match reason {
            PassedOver::TooShort => 20,
            PassedOver::Header => 21,
            PassedOver::MessageType => 22,
            PassedOver::HardwareAddress => 23,
            PassedOver::TransactionId => 24,
            PassedOver::ServerIdentifier => 25,
            PassedOver::NotAwaited => 26,
            PassedOver::OfferAddress => 27,
            PassedOver::NoMask => 28,
            PassedOver::BrokenMask => 29,
            PassedOver::AckAddress => 30,
        }
    }
}

impl fmt::Display for PassedOver {
    fn fmt<W: fmt::Write>(&self, f: &mut fmt::Formatter<W>) -> fmt::Result {
        f.write_str(match self {
            PassedOver::TooShort => "it has fewer than 240 octets",
            PassedOver::Header => "it is no reply for Ethernet, or has no magic cookie",
            PassedOver::MessageType => "it has no message type of one octet",
            PassedOver::HardwareAddress => "it is for another hardware address",
            PassedOver::TransactionId => "it has another transaction id",
            PassedOver::ServerIdentifier => "it has no server identifier",
            PassedOver::NotAwaited => "the state awaits no such reply",
            PassedOver::OfferAddress => "the offered address or its source is not unicast",
            PassedOver::NoMask => "it has no subnet mask",
            PassedOver::BrokenMask => "a one follows a zero in its subnet mask",
            PassedOver::AckAddress => "the leased address is not unicast",
        })
    }
}

impl Error for PassedOver {}
