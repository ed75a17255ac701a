// Replies of a server.
#![tactic(auto, unfolding(crate::specs::Replies::put_at, crate::specs::Replies::reply_of, crate::specs::Replies::typed_of, crate::specs::Replies::ack_of))]

ghost use Rattle.std.specs.Prelude.{◌≡◌};
ghost use Rattle.made.specs.Replies.{put_at, reply_of, typed_of, ack_of};

use crate::start::HEADER;
use octets::codes::ACK;
use octets::span::put_bytes_at;
use octets::word::write_u32;

// What the fixed part of a reply says.
#[derive(Clone, Copy, Debug, PartialEq, Eq)]
pub struct Header {
    pub id: u32,
    // the address that is offered or leased
    pub your: u32,
    pub hardware: [u8; 6],
}

impl Header {
    // A reply with these options, then padding.
    pub fn reply<const N: usize>(self, options: &[u8]) -> [u8; N]
        ensures { result ≡ reply_of N self options.now }
    {
        let mut reply = [0; N];
        put_bytes_at(&mut reply, 0, &[2, 1, 6]);
        write_u32(&mut reply, 4, self.id);
        write_u32(&mut reply, 16, self.your);
        put_bytes_at(&mut reply, 28, &self.hardware);
        put_bytes_at(&mut reply, 236, &[99, 130, 83, 99]);
        with(reply, 240, options)
    }

    // The same, with a message type and identifier 10.0.0.1 before the options.
    pub fn typed<const N: usize>(self, kind: u8, options: &[u8]) -> [u8; N]
        ensures { result ≡ typed_of N self kind options.now }
    {
        let reply = self.reply(&[53, 1, kind, 54, 4, 10, 0, 0, 1]);
        with(reply, 249, options)
    }

    // An ACK, with mask 255.255.255.0 before the options.
    pub fn ack<const N: usize>(self, options: &[u8]) -> [u8; N]
        ensures { result ≡ ack_of N self options.now }
    {
        let reply = self.typed(ACK, &[1, 4, 255, 255, 255, 0]);
        with(reply, 255, options)
    }
}

// A reply with other octets from a place on, if they fit there.
pub fn with<const N: usize>(mut reply: [u8; N], at: usize, octets: &[u8]) -> [u8; N]
    ensures { result ≡ put_at at octets.now reply.entry }
{
    put_bytes_at(&mut reply, at, octets);
    reply
}

// An ACK to a fresh client that has sent nothing, with these options.
pub fn ack(options: &[u8]) -> [u8; 600]
    ensures { result ≡ ack_of 600 HEADER options.now }
{
    HEADER.ack(options)
}
