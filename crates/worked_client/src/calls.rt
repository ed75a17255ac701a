// Every call on a client and its tables.
use crate::clients::plain_ack;
use client::{Client, NotTaken};
use clock::Instant;
use made::SERVER;
use reasons::Refusal;
use std::fmt;
use tables::Tables;

// Why each call is refused, or not taken, and whether reply and reset left both as they were.
#[derive(Clone, Copy)]
pub struct Calls {
    reply: Option<NotTaken>,
    reset: Option<Refusal>,
    lease: Option<Refusal>,
    get: Option<Refusal>,
    state: Option<Refusal>,
    kept: bool,
}

impl Calls {
    // The reply is a plain ACK at 7 ms.
    pub fn on(client: Client, tables: Tables) -> Calls {
        let told = client.process(tables, SERVER, &plain_ack(), Instant { millis: 7 });
        let reset = client.reset(tables);
        Calls {
            reply: told.outcome.err(),
            reset: reset.outcome.err(),
            lease: client.lease().err(),
            get: client.get(53).err(),
            state: client.state().err(),
            kept: (told.client, told.tables) == (client, tables)
                && (reset.client, reset.tables) == (client, tables),
        }
    }
}

// The number of a reason, 0 where there is none.
#[derive(Clone, Copy)]
struct Number<E>(Option<E>);

impl<E: Copy> fmt::Display for Number<E>
where
    u32: From<E>,
{
    fn fmt<W: fmt::Write>(&self, f: &mut fmt::Formatter<W>) -> fmt::Result {
        write!(f, "{}", self.0.map_or(0, u32::from))
    }
}

impl fmt::Display for Calls {
    fn fmt<W: fmt::Write>(&self, f: &mut fmt::Formatter<W>) -> fmt::Result {
        let reply = Number(self.reply);
        let reset = Number(self.reset);
        let lease = Number(self.lease);
        let get = Number(self.get);
        let state = Number(self.state);
        let changed = if self.kept {
            "nothing changed"
        } else {
            "changed"
        };
        write!(
            f,
            "reply {reply}, reset {reset}, lease {lease}, get {get}, state {state}, {changed}"
        )
    }
}
