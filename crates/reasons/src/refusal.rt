// Why a call is refused: nothing has changed then.
ghost use Rattle.std.specs.Prelude.{◌≡◌};
ghost use Rattle.reasons.specs.Numbers.{refusal_number};

use std::error::Error;
use std::fmt;

#[derive(Clone, Copy, Debug, PartialEq, Eq, Hash)]
pub enum Refusal {
    // Creation, in this order.
    Medium,
    Mtu,
    Name,
    RequestList,
    ExtraOptions,
    Maximum,
    LongestMessage,
    // A poll with a buffer that is not empty and shorter than the datagram that is due.
    ShortBuffer,
    // A client or tables that are not whole, or a prefix over 32.
    NotWhole,
    // A route by hand.
    Router,
    // An entry by hand.
    TableFull,
}

impl From<Refusal> for u32 {
    ghost from_gives = { λ refusal number. number ≡ refusal_number refusal };

    fn from(refusal: Refusal) -> u32 {
        match refusal {
            Refusal::Medium => 1,
            Refusal::Mtu => 2,
            Refusal::Name => 3,
            Refusal::RequestList => 4,
            Refusal::ExtraOptions => 5,
            Refusal::Maximum => 6,
            Refusal::LongestMessage => 7,
            Refusal::ShortBuffer => 8,
            Refusal::NotWhole => 9,
            Refusal::Router => 10,
            Refusal::TableFull => 11,
        }
    }
}

impl fmt::Display for Refusal {
    fn fmt<W: fmt::Write>(&self, f: &mut fmt::Formatter<W>) -> fmt::Result {
        f.write_str(match self {
            Refusal::Medium => "the medium is not Ethernet",
            Refusal::Mtu => "the MTU is not from 576 to 1,500",
            Refusal::Name => "the name has more than 63 octets",
            Refusal::RequestList => "the request list has more than 64 codes",
            Refusal::ExtraOptions => "the extra options have more than 255 octets or are not whole",
            Refusal::Maximum => "the maximum is over 1,073,741,824 ms",
            Refusal::LongestMessage => "the longest message is over the MTU less 28",
            Refusal::ShortBuffer => "the buffer is shorter than the datagram that is due",
            Refusal::NotWhole => "the state is not whole, or a prefix is over 32",
            Refusal::Router => "the router is not unicast",
            Refusal::TableFull => "the table is full",
        })
    }
}

impl Error for Refusal {}
