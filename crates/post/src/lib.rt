// A post: a client with its tables and its generator, which each call leaves to the next; and clients that examples begin with.

#![tactic(auto)]

mod clients;

ghost use Rattle.std.specs.Prelude.{◌≡◌, false, Ok, Err, IfOk, IfErr};
ghost use Rattle.client.specs.Calls.{calls};
ghost use Rattle.tables.specs.Tables.{empty_tables};

use client::{Client, NotTaken, PollAnswer};
pub use clients::{after_reply, in_state, renewing};
use clock::{Instant, Rand};
use reasons::Refusal;
use settings::Settings;
use tables::Tables;

#[derive(Clone, Copy, Debug, PartialEq, Eq)]
pub struct Post {
    pub client: Client,
    pub tables: Tables,
    pub rand: Rand,
}

impl Post {
    // A fresh client, which heeds NAKs, and empty tables.
    pub fn new(settings: Settings, rand: Rand) -> Result<Post, Refusal>
        ensures client { IfOk result (λ post. calls.create settings false ≡ Ok post.client) }
        ensures tables { IfOk result (λ post. post.tables ≡ empty_tables) }
        ensures generator { IfOk result (λ post. post.rand ≡ rand) }
        ensures refused { IfErr result (λ refusal. calls.create settings false ≡ Err refusal) }
    {
        Ok(Post {
            client: Client::new(settings, false)?,
            tables: Tables::new(),
            rand,
        })
    }

    // Polls: the post after it, and what came of it.
    pub fn polled(self, now: Instant, buf: &mut [u8]) -> (Post, Result<PollAnswer, Refusal>)
        ensures post { record { client = result.0.client; tables = result.0.tables; rand = result.0.rand; outcome = result.1 } ≡ (calls.poll self.client self.tables self.rand now buf.old).polled }
        ensures buffer { buf.new ≡ (calls.poll self.client self.tables self.rand now buf.old).buffer }
    {
        let polled = self.client.poll(self.tables, self.rand, now, buf);
        let post = Post {
            client: polled.client,
            tables: polled.tables,
            rand: polled.rand,
        };
        (post, polled.outcome)
    }

    // Takes a reply, or passes it over: the post after it, and what came of it.
    pub fn told(self, source: u32, reply: &[u8], now: Instant) -> (Post, Result<bool, NotTaken>)
        ensures post { record { client = result.0.client; tables = result.0.tables; outcome = result.1 } ≡ calls.process self.client self.tables source reply.now now }
        ensures generator { result.0.rand ≡ self.rand }
    {
        let processed = self.client.process(self.tables, source, reply, now);
        let post = Post {
            client: processed.client,
            tables: processed.tables,
            rand: self.rand,
        };
        (post, processed.outcome)
    }
}
