// What a client is created with, and what of it is refused: Medium (1) to LongestMessage (7).
#![tactic(auto, using(choice::proofs::Choices::if_true, choice::proofs::Choices::if_false), unfolding(message::specs::Written::list_fits, crate::specs::Settings::list_of, crate::specs::Settings::maximum_of, crate::specs::Settings::lists_refusal, crate::specs::Settings::refusal_of))]

ghost use Rattle.std.specs.Prelude.{◌≡◌, length, Some, option_copied};
ghost use Rattle.std.specs.Result.{result_err};
ghost use Rattle.settings.specs.Settings.{no_settings, message_of, longest, maximum_of, name_of, asked_list, extra_of, refusal_of, waits_of};
ghost use Rattle.message.specs.Written.{written, buffer_after};

use clock::{Duration, Waits};
use message::lists::{EXTRA_LIMIT, LIST_LIMIT, NAME_LIMIT};
use message::{Endpoints, Lists, Message, message_len, write_message};
use octets::codes::{OPT_DOMAIN_NAME_SERVER, OPT_ROUTER, OPT_SUBNET_MASK, REQUEST};
use octets::span::up_to;
use reasons::Refusal;

#[derive(Clone, Copy, Debug, PartialEq, Eq)]
pub enum Medium {
    Ethernet,
    Ip,
    Ieee802154,
}

// Of each array the first so many octets count, and nothing behind a no is read: document 01's form for slices and options.
#[derive(Clone, Copy, Debug, PartialEq, Eq)]
pub struct Settings {
    pub medium: Medium,
    pub mtu: u16,
    pub hardware: [u8; 6],
    // whether the device works the UDP checksum out
    pub offload: bool,
    // the host name; an empty one is none
    pub name: [u8; 63],
    pub name_len: usize,
    // the codes to request, if there is such a list
    pub listed: bool,
    pub list: [u8; 64],
    pub list_len: usize,
    // options that every message ends with
    pub extra: [u8; 255],
    pub extra_len: usize,
    // the longest lease, if there is such a limit
    pub capped: bool,
    pub maximum: Duration,
}

// Limits of Mtu (2).
const MTU_LEAST: u16 = 576;

const MTU_MOST: u16 = 1500;

// IPv4 header of 20 octets and UDP header of 8, which go before a message; and with the longest IPv4 header, of 60.
const HEADERS: u16 = 28;

const LONGEST_HEADERS: u16 = 68;

// The codes that are requested where there is no list.
const DEFAULT_PARAMETER_REQUEST_LIST: [u8; 3] = [
    OPT_SUBNET_MASK,
    OPT_ROUTER,
    OPT_DOMAIN_NAME_SERVER,
];

impl Settings {
    // All zero.
    pub fn zero() -> Settings
        ensures { result ≡ no_settings }
    {
        Settings {
            medium: Medium::Ethernet,
            mtu: 0,
            hardware: [0; 6],
            offload: false,
            name: [0; 63],
            name_len: 0,
            listed: false,
            list: [0; 64],
            list_len: 0,
            extra: [0; 255],
            extra_len: 0,
            capped: false,
            maximum: Duration::ZERO,
        }
    }

    // Refuses these settings by the first of Medium (1) to LongestMessage (7) that they give cause for.
    pub fn checked(&self) -> Result<(), Refusal>
        ensures { result_err result ≡ refusal_of self.now }
    {
        if self.medium != Medium::Ethernet {
            return Err(Refusal::Medium);
        }
        if self.mtu < MTU_LEAST || MTU_MOST < self.mtu {
            return Err(Refusal::Mtu);
        }
        if NAME_LIMIT < self.name_len {
            return Err(Refusal::Name);
        }
        let codes = self.listed.then_some(self.list_len);
        if codes.is_some_and(|n| LIST_LIMIT < n) {
            return Err(Refusal::RequestList);
        }
        if EXTRA_LIMIT < self.extra_len {
            return Err(Refusal::ExtraOptions);
        }
        let n = message_len(self.longest(), self.lists(true))?;
        let maximum = self.longest_lease();
        if maximum.is_some_and(|most| Duration::MAX.millis < most.millis) {
            return Err(Refusal::Maximum);
        }
        if usize::from(self.mtu - HEADERS) < n {
            return Err(Refusal::LongestMessage);
        }
        Ok(())
    }

    // What refuses these settings, or none.
    pub fn refusal(&self) -> Option<Refusal>
        ensures { result ≡ refusal_of self.now }
    {
        self.checked().err()
    }

    // The lists of a message. A Discover or a Request asks for options, and has the request list.
    fn lists(&self, asks: bool) -> Lists<'_>
        ensures name { result.name.now ≡ name_of self.now }
        ensures list { option_copied result.list ≡ asked_list asks self.now }
        ensures extra { result.extra.now ≡ extra_of self.now }
    {
        let list = if self.listed {
            up_to(&self.list, self.list_len)
        } else {
            &DEFAULT_PARAMETER_REQUEST_LIST
        };
        Lists {
            name: up_to(&self.name, self.name_len),
            list: asks.then_some(list),
            extra: up_to(&self.extra, self.extra_len),
        }
    }

    // The longest message, a Request in Requesting.
    fn longest(&self) -> Message
        ensures { result ≡ longest self.now }
    {
        self.message(REQUEST, 0, 0, Some(0), Some(0))
    }

    // Writes a message of a client with these settings as a datagram at the start of buf, or refuses it as Name (3),
    // RequestList (4), ExtraOptions (5) or ShortBuffer (8) and writes nothing. asks: whether the request
    // list goes with it. Where it goes is its sender's: no struct here would hold both.
    pub fn write(
        self,
        m: Message,
        asks: bool,
        ends: Endpoints,
        buf: &mut [u8],
    ) -> Result<usize, Refusal>
        ensures { (result ≡ written m (name_of self) (asked_list asks self) (extra_of self) (length buf.old)) × (buf.new ≡ buffer_after ends self.offload m (name_of self) (asked_list asks self) (extra_of self) buf.old) }
    {
        write_message(buf, ends, self.offload, m, self.lists(asks))
    }

    // The fields of a message with these values, the hardware address and option 57. They stay apart: Message is what they make.
    pub fn message(
        self,
        kind: u8,
        id: u32,
        client: u32,
        requested: Option<u32>,
        server: Option<u32>,
    ) -> Message
        ensures { result ≡ message_of self kind id client requested server }
    {
        // option 57, the longest message that the client takes: the MTU less the longest headers
        let size = u32::from(self.mtu.saturating_sub(LONGEST_HEADERS));
        let hardware = self.hardware;
        Message {
            kind,
            id,
            client,
            hardware,
            requested,
            server,
            size: Some(size),
        }
    }

    // How long a client with these settings waits.
    pub fn waits(self) -> Waits
        ensures { result ≡ waits_of self }
    {
        Waits::standard()
    }

    // The longest lease, if there is such a limit.
    pub fn longest_lease(self) -> Option<Duration>
        ensures { result ≡ maximum_of self }
    {
        self.capped.then_some(self.maximum)
    }
}
