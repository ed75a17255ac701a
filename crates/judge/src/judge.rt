// Judging a reply: whether a client takes it, and as what. It needs neither the lease nor the tables.
#![tactic(auto, using(choice::proofs::Choices::if_true, choice::proofs::Choices::if_false, choice::proofs::Choices::tests, octets::proofs::Masks::length_bound), unfolding(crate::specs::Judged::needing, crate::specs::Judged::judged, crate::specs::Judged::judged_sender, crate::specs::Judged::judged_kind, crate::specs::Judged::judged_offer, crate::specs::Judged::judged_ack, crate::specs::Judged::judged_address))]

ghost use Rattle.std.specs.Prelude.{◌≡◌};
ghost use Rattle.judge.specs.Judged.{judged, judged_offer, judged_ack};

use crate::awaited::Awaited;
use machine::{ClientState, DhcpServerInfo};
use octets::address::{prefix_len, x_is_unicast};
use octets::codes::{OPT_SERVER_IDENTIFIER, OPT_SUBNET_MASK};
use reasons::PassedOver;
use wire::reply::{
    check_header, is_addressed_to, message_type, option_address, transaction_id, unicast_only,
    your_ip,
};

// What of a client decides on a reply.
#[derive(Clone, Copy, Debug, PartialEq, Eq)]
pub struct Recipient {
    pub hardware: [u8; 6],
    pub id: u32,
    pub state: ClientState,
    pub ignoring: bool,
}

// An address that a server offers, and who the server is.
#[derive(Clone, Copy, Debug, PartialEq, Eq)]
pub struct Offered {
    pub server: DhcpServerInfo,
    pub address: u32,
}

// What a server leases. It repeats the two fields of Offered: with one in it, each use would take a step more.
#[derive(Clone, Copy, Debug, PartialEq, Eq)]
pub struct Acked {
    pub server: DhcpServerInfo,
    pub address: u32,
    pub prefix: u8,
}

// What a reply is taken as, with what was read of it. Awaited is its kind alone, which is known before that is read.
#[derive(Clone, Copy, Debug, PartialEq, Eq)]
pub enum Verdict {
    Offer(Offered),
    Ack(Acked),
    Nak,
}

impl Recipient {
    // The checks in document 01's order: length and header, message type, client hardware address, transaction id, server
    // identifier, then the state. Source and reply stay two: a reply is lent, and does not say where it came from.
    pub fn judge(self, source: u32, reply: &[u8]) -> Result<Verdict, PassedOver>
        ensures { result ≡ judged self source reply.now }
    {
        check_header(reply)?;
        let kind = message_type(reply).ok_or(PassedOver::MessageType)?;
        if !is_addressed_to(reply, self.hardware) {
            return Err(PassedOver::HardwareAddress);
        }
        if transaction_id(reply) != Some(self.id) {
            return Err(PassedOver::TransactionId);
        }
        let named = option_address(reply, OPT_SERVER_IDENTIFIER);
        let identifier = named.ok_or(PassedOver::ServerIdentifier)?;
        let server = DhcpServerInfo {
            address: source,
            identifier,
        };
        match Awaited::of(self.state, kind, self.ignoring).ok_or(PassedOver::NotAwaited)? {
            Awaited::Offer => judge_offer(server, reply),
            Awaited::Ack => judge_ack(server, reply),
            Awaited::Nak => Ok(Verdict::Nak),
        }
    }
}

// An OFFER: your-address and source unicast.
fn judge_offer(server: DhcpServerInfo, reply: &[u8]) -> Result<Verdict, PassedOver>
    ensures { result ≡ judged_offer server reply.now }
{
    let address = unicast_only(your_ip(reply)).ok_or(PassedOver::OfferAddress)?;
    if !x_is_unicast(server.address) {
        return Err(PassedOver::OfferAddress);
    }
    Ok(Verdict::Offer(Offered { server, address }))
}

// An ACK: mask, contiguity, your-address.
fn judge_ack(server: DhcpServerInfo, reply: &[u8]) -> Result<Verdict, PassedOver>
    ensures { result ≡ judged_ack server reply.now }
{
    let mask = option_address(reply, OPT_SUBNET_MASK).ok_or(PassedOver::NoMask)?;
    let prefix = prefix_len(mask).ok_or(PassedOver::BrokenMask)?;
    let address = unicast_only(your_ip(reply)).ok_or(PassedOver::AckAddress)?;
    Ok(Verdict::Ack(Acked {
        server,
        address,
        prefix: prefix as u8,
    }))
}
