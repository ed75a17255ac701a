// What the season prints of its post.
use clock::Instant;
use made::Shown;
use post::Post;
use std::fmt;
use std::net::Ipv4Addr;

// At the moment of the last call.
#[derive(Clone, Copy)]
pub struct At(pub Post, pub Instant);

impl fmt::Display for At {
    fn fmt<W: fmt::Write>(&self, f: &mut fmt::Formatter<W>) -> fmt::Result {
        let post = self.0;
        let now = self.1.millis;
        let session = post.client.session;
        let lease = post.client.lease;
        let tables = post.tables;
        write!(f, "moment {now} | {}", Shown(session.state))?;
        write!(
            f,
            ", id {} | generator {}",
            session.transaction_id, post.rand.state
        )?;
        write!(f, " | {}/{}", Ipv4Addr::from(lease.address), lease.prefix)?;
        write!(f, " | generation {}", tables.config_generation)?;
        write!(
            f,
            ", {} addresses, {} routes",
            tables.ip_addrs.count, tables.routes.count
        )
    }
}
