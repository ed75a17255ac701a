// How the examples print what they find.
use lease::DhcpLease;
use machine::ClientState;
use made::Shown;
use std::fmt;
use std::net::Ipv4Addr;

// When the lease of a state is renewed, rebound and over.
#[derive(Clone, Copy)]
pub struct Times(pub ClientState);

impl fmt::Display for Times {
    fn fmt<W: fmt::Write>(&self, f: &mut fmt::Formatter<W>) -> fmt::Result {
        match self.0 {
            ClientState::Renewing(s) => {
                let renew = s.renew_at.millis;
                let rebind = s.rebind_at.millis;
                let expires = s.expires_at.millis;
                write!(f, "{renew} {rebind} {expires}")
            }
            _ => f.write_str("no lease"),
        }
    }
}

// A lease with its DNS servers, and how many octets are stored.
#[derive(Clone, Copy)]
pub struct Whole(pub DhcpLease);

impl fmt::Display for Whole {
    fn fmt<W: fmt::Write>(&self, f: &mut fmt::Formatter<W>) -> fmt::Result {
        let lease = Shown(self.0);
        let dns = self.0.dns;
        let stored = self.0.options.len;
        write!(f, "{lease}")?;
        for server in dns.list.iter().take(dns.count) {
            write!(f, " DNS {}", Ipv4Addr::from(*server))?;
        }
        write!(f, " stored {stored}")
    }
}
