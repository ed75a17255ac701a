// Which reply a state awaits.
#![tactic(auto, using(choice::proofs::Choices::if_true, choice::proofs::Choices::if_false, choice::proofs::Choices::tests), unfolding(crate::specs::Awaited::offer_alone, crate::specs::Awaited::ack_or_nak))]

ghost use Rattle.std.specs.Prelude.{◌≡◌};
ghost use Rattle.judge.specs.Awaited.{awaited};

use machine::ClientState::{self, Discovering, Renewing, Requesting};
use octets::codes::{ACK, NAK, OFFER};

// What a reply that a state awaits is to it.
#[derive(Clone, Copy, Debug, PartialEq, Eq)]
pub enum Awaited {
    Offer,
    Ack,
    Nak,
}

impl Awaited {
    // What a reply of a message type is to a state, where NAKs are ignored or not; none where it is not awaited.
    pub(crate) fn of(state: ClientState, kind: u8, ignoring: bool) -> Option<Awaited>
        ensures { result ≡ awaited state kind ignoring }
    {
        match (state, kind) {
            (Discovering(_), OFFER) => Some(Awaited::Offer),
            (Requesting(_) | Renewing(_), ACK) => Some(Awaited::Ack),
            (Requesting(_) | Renewing(_), NAK) if !ignoring => Some(Awaited::Nak),
            _ => None,
        }
    }
}
