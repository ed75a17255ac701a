// How the examples print what they meet.
use lease::DhcpLease;
use machine::{ClientState, DhcpServerInfo};
use std::fmt;
use std::net::Ipv4Addr;
use tables::{IfaceAddr, Route};
use wire::Place;

// A value as it is printed.
#[derive(Clone, Copy)]
pub struct Shown<T>(pub T);

// yes or no
#[derive(Clone, Copy)]
pub struct YesNo(pub bool);

impl fmt::Display for YesNo {
    fn fmt<W: fmt::Write>(&self, f: &mut fmt::Formatter<W>) -> fmt::Result {
        f.write_str(if self.0 { "yes" } else { "no" })
    }
}

// Where it is, and what it calls itself.
impl fmt::Display for Shown<DhcpServerInfo> {
    fn fmt<W: fmt::Write>(&self, f: &mut fmt::Formatter<W>) -> fmt::Result {
        let server = self.0;
        let address = Ipv4Addr::from(server.address);
        let identifier = Ipv4Addr::from(server.identifier);
        write!(f, "{address} {identifier}")
    }
}

impl fmt::Display for Shown<ClientState> {
    fn fmt<W: fmt::Write>(&self, f: &mut fmt::Formatter<W>) -> fmt::Result {
        match self.0 {
            ClientState::Init => f.write_str("Init"),
            ClientState::Discovering(s) => write!(f, "Discovering, due {}", s.retry_at.millis),
            ClientState::Requesting(s) => {
                let address = Ipv4Addr::from(s.requested_ip);
                let server = Shown(s.server);
                let due = s.tries.retry_at.millis;
                let retry = s.tries.retry;
                write!(
                    f,
                    "Requesting {address} from {server}, due {due}, retry {retry}"
                )
            }
            ClientState::Renewing(s) => {
                let renew = s.renew_at.millis;
                let rebind = s.rebind_at.millis;
                let expires = s.expires_at.millis;
                let rebinding = if s.rebinding { " rebinding" } else { "" };
                write!(f, "Renewing {renew} {rebind} {expires}{rebinding}")
            }
        }
    }
}

// Address and prefix; a star marks an entry of DHCP's.
impl fmt::Display for Shown<IfaceAddr> {
    fn fmt<W: fmt::Write>(&self, f: &mut fmt::Formatter<W>) -> fmt::Result {
        let entry = self.0;
        let address = Ipv4Addr::from(entry.address);
        let prefix = entry.prefix;
        let star = star(entry.dhcp);
        write!(f, "{address}/{prefix}{star}")
    }
}

impl fmt::Display for Shown<Route> {
    fn fmt<W: fmt::Write>(&self, f: &mut fmt::Formatter<W>) -> fmt::Result {
        let entry = self.0;
        let network = Ipv4Addr::from(entry.network);
        let prefix = entry.prefix;
        let router = Ipv4Addr::from(entry.router);
        let star = star(entry.dhcp);
        write!(f, "{network}/{prefix} by {router}{star}")
    }
}

fn star(dhcp: bool) -> &'static str {
    if dhcp { "*" } else { "" }
}

// Where a stored option lies.
impl fmt::Display for Shown<Place> {
    fn fmt<W: fmt::Write>(&self, f: &mut fmt::Formatter<W>) -> fmt::Result {
        let Place { start, len } = self.0;
        write!(f, "at {start}, length {len}")
    }
}

// Address and prefix, server, and router.
impl fmt::Display for Shown<DhcpLease> {
    fn fmt<W: fmt::Write>(&self, f: &mut fmt::Formatter<W>) -> fmt::Result {
        let lease = self.0;
        let address = Ipv4Addr::from(lease.address);
        let prefix = lease.prefix;
        let server = Shown(lease.server);
        write!(f, "{address}/{prefix} from {server}")?;
        match lease.router {
            None => Ok(()),
            Some(router) => write!(f, " router {}", Ipv4Addr::from(router)),
        }
    }
}
