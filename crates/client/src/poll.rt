// Polls: what is due is decided, then measured and written, then settled.
ghost use Rattle.std.specs.Prelude.{◌≡◌};
ghost use Rattle.client.specs.Calls.{calls};
ghost use Rattle.client.specs.Resets.{dropped};
ghost use Rattle.client.specs.Polls.{silent, built, purging};
ghost use Rattle.client.specs.Changes.{unmoved, drops, moved_by, change_sent, poll_change, left_by};

use crate::client::{Client, Session};
use clock::{Drawn, Instant, Rand};
use machine::{ClientState, Sending};
use message::Endpoints;
use reasons::Refusal;
use tables::Tables;

// What was built, if anything was, and when the next poll is wanted.
#[derive(Clone, Copy, Debug, PartialEq, Eq)]
pub struct PollAnswer {
    // the datagram's octets, and where it goes from and to: document 01 has all of them 0 where none was built
    pub length: usize,
    pub source: u32,
    pub destination: u32,
    pub wake: Instant,
    // whether link state is to be purged
    pub purge: bool,
}

// The client, its tables and the generator after a poll; as they came where it is refused.
#[derive(Clone, Copy, Debug, PartialEq, Eq)]
pub struct Polled {
    pub client: Client,
    pub tables: Tables,
    pub rand: Rand,
    pub outcome: Result<PollAnswer, Refusal>,
}

// What a poll changes: whether the lease goes, the client's session after it, the generator and the answer.
#[derive(Clone, Copy, Debug, PartialEq, Eq)]
pub(crate) struct PollChange {
    pub drops: bool,
    pub session: Session,
    pub rand: Rand,
    pub outcome: Result<PollAnswer, Refusal>,
}

impl Client {
    // Sends what is due at a moment, if anything is, as a datagram at the start of buf, and says when the next poll is wanted.
    // Refused as NotWhole (9) where client or tables are not whole, as ShortBuffer (8) where buf is not empty and shorter than the
    // datagram. An empty one gets nothing. Client, tables and generator stay apart in every call, as document 01 has them ("a
    // client goes into each call by value and comes out of it"); programs have them together in post::Post.
    pub fn poll(mut self, tables: Tables, rand: Rand, moment: Instant, buf: &mut [u8]) -> Polled
        ensures { (result ≡ (calls.poll self tables rand moment buf.old).polled) × (buf.new ≡ (calls.poll self tables rand moment buf.old).buffer) }
    {
        let whole = self.is_whole() & tables.is_whole();
        if !whole {
            return Polled {
                client: self,
                tables,
                rand,
                outcome: Err(Refusal::NotWhole),
            };
        }
        let change = self.change(rand, moment, buf);
        if change.drops {
            return self.dropping(tables, change);
        }
        let drawn = change.rand;
        self.session = change.session;
        Polled {
            client: self,
            tables,
            rand: drawn,
            outcome: change.outcome,
        }
    }

    // What the poll of a client that was found whole changes. Tables don't decide it.
    fn change(&self, rand: Rand, moment: Instant, buf: &mut [u8]) -> PollChange
        ensures { (result ≡ (poll_change self.now rand moment buf.old).change) × (buf.new ≡ (poll_change self.now rand moment buf.old).buffer) }
    {
        let decision = self.session.state.decide(self.settings.waits(), moment);
        let wake = decision.wake;
        match decision.due {
            None => unmoved(self.session, rand, Ok(PollAnswer::silent(wake))),
            Some(sending) => self.send(rand, wake, sending, buf),
        }
    }

    // What is left where the lease goes, and with it what it has put into the tables.
    fn dropping(self, tables: Tables, change: PollChange) -> Polled
        ensures { result ≡ left_by (dropped self tables) change }
    {
        let mut settled = self.dropped::<Refusal>(tables);
        settled.client.session = change.session;
        Polled {
            client: settled.client,
            tables: settled.tables,
            rand: change.rand,
            outcome: change.outcome,
        }
    }

    // The rest of a poll in which a message is due. Generator, waking moment and message come from three places, and meet here.
    fn send(&self, rand: Rand, wake: Instant, sending: Sending, buf: &mut [u8]) -> PollChange
        ensures { (result ≡ (change_sent self.now rand buf.old wake sending).change) × (buf.new ≡ (change_sent self.now rand buf.old wake sending).buffer) }
    {
        let session = self.session;
        let state = session.state;
        let drawn = sending::drawn(session.transaction_id, rand, sending);
        if buf.is_empty() {
            return moved(state, drawn, sending, PollAnswer::silent(wake));
        }
        let ends = sending::endpoints(self.lease, sending);
        match sending::write(self.settings, self.lease, drawn.value, sending, buf) {
            Ok(n) => moved(state, drawn, sending, PollAnswer::built(n, ends, wake)),
            Err(_) => unmoved(session, rand, Err(Refusal::ShortBuffer)),
        }
    }
}

// Nothing is sent: all as it came, with the answer or the refusal.
fn unmoved(session: Session, rand: Rand, outcome: Result<PollAnswer, Refusal>) -> PollChange
    ensures { result ≡ unmoved session rand outcome }
{
    PollChange {
        drops: false,
        session,
        rand,
        outcome,
    }
}

// A message is sent from a state.
fn moved(state: ClientState, drawn: Drawn<u32>, sending: Sending, answer: PollAnswer) -> PollChange
    ensures { result ≡ moved_by state drawn sending answer }
{
    let drops = drops(state, sending);
    PollChange {
        drops,
        session: Session {
            state: sending.following(),
            transaction_id: drawn.value,
        },
        rand: drawn.rand,
        outcome: Ok(answer.purging(drops)),
    }
}

// Whether a lease goes where a message is sent.
fn drops(state: ClientState, sending: Sending) -> bool
    ensures { result ≡ drops state sending }
{
    match sending {
        Sending::Discover(_) => state.has_lease(),
        Sending::Request(_) | Sending::Renew(_) => false,
    }
}

impl PollAnswer {
    // Nothing is built, nothing purged.
    fn silent(wake: Instant) -> PollAnswer
        ensures { result ≡ silent wake }
    {
        PollAnswer {
            length: 0,
            source: 0,
            destination: 0,
            wake,
            purge: false,
        }
    }

    // A datagram of n octets is.
    fn built(n: usize, ends: Endpoints, wake: Instant) -> PollAnswer
        ensures { result ≡ built n ends wake }
    {
        PollAnswer {
            length: n,
            source: ends.source,
            destination: ends.destination,
            wake,
            purge: false,
        }
    }

    // The answer, with whether link state is to be purged.
    fn purging(self, purge: bool) -> PollAnswer
        ensures { result ≡ purging self purge }
    {
        PollAnswer { purge, ..self }
    }
}
