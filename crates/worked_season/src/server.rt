// The server: what it hears, and what it sends.
use client::NotTaken;
use clock::Instant;
use made::{Header, SERVER};
use octets::codes::{ACK, DISCOVER, NAK, OFFER, REQUEST};
use post::Post;
use wire::reply::{message_type, transaction_id};

// 10.0.0.50, the first address that is leased; each NAK leads to the next.
const FIRST_ADDRESS: u32 = 0x0a000032;

const HOUR: u64 = 3600000;

// A message of the client's.
#[derive(Clone, Copy)]
pub enum Sent {
    Discover,
    Request,
}

// A reply to it, as the server sends it, whether a state awaits it or not: not judge's Awaited.
#[derive(Clone, Copy, PartialEq, Eq)]
pub enum Told {
    Offer,
    Ack,
    Nak,
}

// What a reply takes from the message.
#[derive(Clone, Copy)]
pub struct Heard {
    pub sent: Sent,
    id: u32,
    hardware: [u8; 6],
}

// A reply to what was heard.
#[derive(Clone, Copy)]
pub struct Reply {
    pub told: Told,
    heard: Heard,
}

impl Heard {
    // The message of a datagram, behind the 8 octets of UDP's header.
    pub fn of_datagram(datagram: &[u8]) -> Option<Heard> {
        let message = datagram.get(8..)?;
        let sent = match message_type(message)? {
            DISCOVER => Sent::Discover,
            REQUEST => Sent::Request,
            _ => return None,
        };
        let id = transaction_id(message)?;
        let hardware = <[u8; 6]>::try_from(message.get(28..34)?).ok()?;
        Some(Heard { sent, id, hardware })
    }

    // The reply to a message, by its number and when it was sent.
    pub fn reply(self, number: u32, elapsed: u64) -> Option<Reply> {
        let told = self.sent.answer(number, elapsed)?;
        Some(Reply { told, heard: self })
    }
}

impl Sent {
    fn answer(self, number: u32, elapsed: u64) -> Option<Told> {
        match (elapsed / HOUR % 29, self) {
            (7 | 8, _) => None,
            (_, Sent::Request) if number % 61 == 60 => Some(Told::Nak),
            (_, Sent::Discover) if number % 61 == 60 => None,
            _ if number % 13 == 12 => None,
            (_, Sent::Discover) => Some(Told::Offer),
            (_, Sent::Request) => Some(Told::Ack),
        }
    }
}

// How long the reply to a message takes.
pub fn delay(number: u32) -> u32 {
    20 + number % 7
}

// An hour, mask 255.255.255.0, router 10.0.0.1, DNS servers 10.0.0.2 and 10.0.0.3.
const TERMS: [u8; 29] = [
    51, 4, 0, 0, 14, 16, 1, 4, 255, 255, 255, 0, 3, 4, 10, 0, 0, 1, 6, 8, 10, 0, 0, 2, 10, 0, 0, 3,
    255,
];

impl Reply {
    // A post after the reply, and what came of it.
    pub fn taken_by(self, post: Post, naks: u32, now: Instant) -> (Post, Result<bool, NotTaken>) {
        match self.told {
            Told::Nak => {
                let octets: [u8; 250] = self.header(0).typed(NAK, &[255]);
                post.told(SERVER, &octets, now)
            }
            Told::Offer => self.lease(OFFER, post, naks, now),
            Told::Ack => self.lease(ACK, post, naks, now),
        }
    }

    // With the server's terms. Post and moment stay two, as in the calls of post.
    fn lease(
        self,
        kind: u8,
        post: Post,
        naks: u32,
        now: Instant,
    ) -> (Post, Result<bool, NotTaken>) {
        let octets: [u8; 278] = self.header(FIRST_ADDRESS + naks % 100).typed(kind, &TERMS);
        post.told(SERVER, &octets, now)
    }

    // To the client that was heard.
    fn header(self, your: u32) -> Header {
        let Heard { id, hardware, .. } = self.heard;
        Header { id, your, hardware }
    }
}
