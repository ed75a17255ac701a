// Replies: any bytes, from any source.
#![tactic(auto, using(choice::proofs::Choices::if_true, choice::proofs::Choices::if_false), unfolding(crate::specs::Clients::whole_all, crate::specs::Taken::processed, crate::specs::Taken::replied))]

ghost use Rattle.std.specs.Prelude.{◌≡◌};
ghost use Rattle.client.specs.Calls.{calls};
ghost use Rattle.client.specs.Outcomes.{not_taken_number};
ghost use Rattle.client.specs.Taken.{recipient_of};

use crate::client::{Client, Settled};
use clock::Instant;
use judge::{Recipient, Verdict};
use machine::ClientState;
use reasons::{PassedOver, Refusal};
use std::error::Error;
use std::fmt;
use tables::Tables;

// Why a reply is not taken: it is passed over, or the call is refused.
#[derive(Clone, Copy, Debug, PartialEq, Eq)]
pub enum NotTaken {
    PassedOver(PassedOver),
    Refused(Refusal),
}

impl From<NotTaken> for u32 {
    ghost from_gives = { λ why number. number ≡ not_taken_number why };

    fn from(why: NotTaken) -> u32 {
        match why {
            NotTaken::PassedOver(reason) => u32::from(reason),
            NotTaken::Refused(refusal) => u32::from(refusal),
        }
    }
}

impl fmt::Display for NotTaken {
    fn fmt<W: fmt::Write>(&self, f: &mut fmt::Formatter<W>) -> fmt::Result {
        match self {
            NotTaken::PassedOver(reason) => write!(f, "passed over: {reason}"),
            NotTaken::Refused(refusal) => write!(f, "refused: {refusal}"),
        }
    }
}

impl Error for NotTaken {}

// The client and its tables after a reply, and whether link state is to be purged; as they came where it is not taken.
pub type Processed = Settled<Result<bool, NotTaken>>;

impl Client {
    // Takes a reply, the UDP payload, or passes it over; refused as NotWhole (9) where client or tables are not whole. Its
    // parameters stay apart as poll's do.
    pub fn process(
        mut self,
        tables: Tables,
        source: u32,
        reply: &[u8],
        moment: Instant,
    ) -> Processed
        ensures { result ≡ calls.process self tables source reply.now moment }
    {
        let whole = self.is_whole() & tables.is_whole();
        if !whole {
            return Settled {
                client: self,
                tables,
                outcome: Err(NotTaken::Refused(Refusal::NotWhole)),
            };
        }
        let verdict = self.recipient().judge(source, reply);
        // each arm returns, as document 01 has the client go by value: a match whose arms made the answer would copy client and
        // tables once more (docs/SPEED.md)
        match verdict {
            Ok(Verdict::Offer(offer)) => {
                self.session.state = ClientState::requesting(offer.server, offer.address, moment);
                return Settled {
                    client: self,
                    tables,
                    outcome: Ok(false),
                };
            }
            Ok(Verdict::Ack(ack)) => {
                let applied = self.acked(tables, reply, moment, ack);
                return Settled {
                    client: self,
                    tables: applied.tables,
                    outcome: Ok(applied.purge),
                };
            }
            Ok(Verdict::Nak) => return self.cleared(tables),
            Err(reason) => {
                return Settled {
                    client: self,
                    tables,
                    outcome: Err(NotTaken::PassedOver(reason)),
                };
            }
        }
    }

    // What of this client decides on a reply.
    fn recipient(&self) -> Recipient
        ensures { result ≡ recipient_of self.now }
    {
        let hardware = self.settings.hardware;
        Recipient {
            hardware,
            id: self.session.transaction_id,
            state: self.session.state,
            ignoring: self.ignore_naks,
        }
    }
}
