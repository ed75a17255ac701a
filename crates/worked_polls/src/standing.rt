// A post as each line leaves it to the next, and when the last call was made.
use crate::call::{Call, Told};
use client::{Client, NotTaken, PollAnswer};
use clock::{Instant, Rand};
use machine::ClientState;
use made::{LENT, Refused, SERVER};
use octets::word::read_u32;
use post::Post;
use reasons::Refusal;
use settings::Settings;
use std::net::Ipv4Addr;
use std::{fmt, io};
use tables::Tables;

#[derive(Clone, Copy)]
pub struct Standing {
    post: Post,
    now: Instant,
}

// The longest buffer that is lent.
const ROOM: usize = 700;

impl Standing {
    // Settings that are refused leave a client that is all zero.
    pub fn new(millis: u32, seed: u32, settings: Settings) -> Standing {
        let post = Post {
            client: Client::or_zero(Client::new(settings, false)),
            tables: Tables::new(),
            rand: Rand::new(u64::from(seed)),
        };
        Standing {
            post,
            now: Instant { millis },
        }
    }

    // After a call, of which is printed what came of it.
    pub fn after(self, rt: &impl Print, call: Call) -> io::Result<Standing> {
        match call {
            Call::New {
                millis,
                seed,
                settings,
            } => Ok(Standing::new(millis, seed, settings)),
            Call::Poll { step, room, place } => self.polled(rt, self.now.add(step), room, place),
            Call::Reply { step, told } => self.told(rt, self.now.add(step), told),
            Call::State(state) => Ok(self.in_state(state)),
        }
    }

    // After a poll: what was sent; how many octets at the end are as they were; and the four octets at a place of what was
    // lent, the last part of the buffer. Moment, room and place are a line's own numbers.
    fn polled(
        self,
        rt: &impl Print,
        now: Instant,
        room: usize,
        place: usize,
    ) -> io::Result<Standing> {
        let mut buf = [LENT; ROOM];
        let at = ROOM - room.min(ROOM);
        let (post, outcome) = self.post.polled(now, &mut buf[at..]);
        print_polled(rt, outcome)?;
        let kept = buf.iter().rev().take_while(|c| **c == LENT).count();
        let shown = Ipv4Addr::from(read_u32(&buf[at..], place).unwrap_or(0));
        print!(rt; ", kept {kept}, shown {shown}")?;
        Ok(Standing { post, now })
    }

    fn told(self, rt: &impl Print, now: Instant, told: Told) -> io::Result<Standing> {
        let reply = told.reply(self.post.client.session.transaction_id);
        let (post, outcome) = self.post.told(SERVER, &reply, now);
        print_told(rt, outcome)?;
        Ok(Standing { post, now })
    }

    // The same but for the client's state.
    fn in_state(mut self, state: ClientState) -> Standing {
        self.post.client.session.state = state;
        self
    }
}

fn print_polled(rt: &impl Print, outcome: Result<PollAnswer, Refusal>) -> io::Result<()> {
    match outcome {
        Ok(answer) => {
            let length = answer.length;
            let source = Ipv4Addr::from(answer.source);
            let destination = Ipv4Addr::from(answer.destination);
            let wake = answer.wake.millis;
            let purge = u8::from(answer.purge);
            print!(rt;
                ": {length} octets from {source} to {destination}, wakes {wake}, purge {purge}"
            )
        }
        Err(refusal) => print!(rt; ": {}", Refused(refusal)),
    }
}

fn print_told(rt: &impl Print, outcome: Result<bool, NotTaken>) -> io::Result<()> {
    match outcome {
        Ok(purge) => print!(rt; ": taken, purge {}", u8::from(purge)),
        Err(reason) => print!(rt; ": {}", Refused(reason)),
    }
}

// The end of a line: the state, then moment, id, the generator's last 32 bits, the lease's address, the generation, and how
// many entries the tables have, addresses and routes together.
impl fmt::Display for Standing {
    fn fmt<W: fmt::Write>(&self, f: &mut fmt::Formatter<W>) -> fmt::Result {
        let post = self.post;
        let state = State(post.client.session.state);
        let now = self.now.millis;
        let id = post.client.session.transaction_id;
        let generator = post.rand.state % 4294967296;
        let address = Ipv4Addr::from(post.client.lease.address);
        let generation = post.tables.config_generation;
        let entries = post
            .tables
            .ip_addrs
            .count
            .wrapping_add(post.tables.routes.count);
        write!(f, " | {state} | at {now}, id {id}, generator {generator}")?;
        write!(
            f,
            " | {address}, generation {generation}, entries {entries}"
        )
    }
}

// In these lines' own words: made::Shown has others.
#[derive(Clone, Copy)]
struct State(ClientState);

impl fmt::Display for State {
    fn fmt<W: fmt::Write>(&self, f: &mut fmt::Formatter<W>) -> fmt::Result {
        match self.0 {
            ClientState::Init => f.write_str("Init"),
            ClientState::Discovering(s) => write!(f, "Discovering, due {}", s.retry_at.millis),
            ClientState::Requesting(s) => {
                let due = s.tries.retry_at.millis;
                let retry = s.tries.retry;
                write!(f, "Requesting, due {due}, retry {retry}")
            }
            ClientState::Renewing(s) => {
                let renew = s.renew_at.millis;
                let rebind = s.rebind_at.millis;
                let expires = s.expires_at.millis;
                let rebinding = u8::from(s.rebinding);
                write!(
                    f,
                    "Renewing {renew} {rebind} {expires}, rebinding {rebinding}"
                )
            }
        }
    }
}
