// Calls on a post, each a line: what was asked and what came, then the post as it stands: the client's state and lease, then
// the tables: generation, addresses, default route; a star marks an entry of DHCP's.
use client::{Client, NotTaken, Settled};
use clock::Instant;
use made::{Refused, SERVER, Shown};
use std::{fmt, io};
use tables::Tables;

// A client and its tables, which each call leaves to the next. It is not post::Post, which has a generator too: nothing here draws
// from one.
#[derive(Clone, Copy)]
pub struct Post {
    pub client: Client,
    pub tables: Tables,
}

impl Post {
    pub fn after<T: Copy>(settled: Settled<T>) -> Post {
        Post {
            client: settled.client,
            tables: settled.tables,
        }
    }

    // A reply of the server's, at a moment; its parameters are told_by's.
    pub fn told(self, rt: &impl Print, asked: &str, reply: &[u8], millis: u32) -> io::Result<Post> {
        self.told_by(rt, asked, SERVER, reply, millis)
    }

    // From another server. Source and reply stay two, as client's process has them.
    pub fn told_by(
        self,
        rt: &impl Print,
        asked: &str,
        source: u32,
        reply: &[u8],
        millis: u32,
    ) -> io::Result<Post> {
        let told = self
            .client
            .process(self.tables, source, reply, Instant { millis });
        let post = Post::after(told);
        let came = match told.outcome {
            Ok(true) => "taken, purge",
            Ok(false) => "taken, no purge",
            Err(NotTaken::PassedOver(_)) => "passed over",
            Err(NotTaken::Refused(_)) => "refused",
        };
        println!(rt; "{asked}: {came} | {post}")?;
        Ok(post)
    }

    pub fn reset(self, rt: &impl Print, asked: &str) -> io::Result<Post> {
        let done = self.client.reset(self.tables);
        let post = Post::after(done);
        let came = match done.outcome {
            Ok(true) => "done, purge",
            Ok(false) => "done, no purge",
            Err(_) => "refused",
        };
        println!(rt; "{asked}: {came} | {post}")?;
        Ok(post)
    }
}

impl fmt::Display for Post {
    fn fmt<W: fmt::Write>(&self, f: &mut fmt::Formatter<W>) -> fmt::Result {
        let client = self.client;
        let tables = self.tables;
        let state = Shown(client.session.state);
        let id = client.session.transaction_id;
        let lease = Shown(client.lease);
        let stored = client.lease.options.len;
        let generation = tables.config_generation;
        write!(
            f,
            "{state}, id {id} | {lease} stored {stored} | {generation} |"
        )?;
        // The look-up by place is what is shown, and where it is refused, that.
        for place in 0..4 {
            match tables.addr_at(place) {
                Ok(Some(entry)) => write!(f, " {}", Shown(entry))?,
                Ok(None) => {}
                Err(refusal) => write!(f, " {}", Refused(refusal))?,
            }
        }
        f.write_str(" |")?;
        match tables.default_ipv4_route() {
            Ok(Some(route)) => write!(f, " {}", Shown(route)),
            Ok(None) => Ok(()),
            Err(refusal) => write!(f, " {}", Refused(refusal)),
        }
    }
}
