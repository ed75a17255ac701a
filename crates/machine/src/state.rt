// The client's states.
ghost use Rattle.std.specs.Prelude.{◌≡◌};
ghost use Rattle.machine.specs.States.{has_lease, requesting, renewing};

use crate::times::Times;
use clock::{Duration, Instant};

// How to reach a server.
#[derive(Clone, Copy, Debug, PartialEq, Eq)]
pub struct DhcpServerInfo {
    // Where its messages come from, and renewals go to.
    pub address: u32,
    // What it calls itself, in option 54.
    pub identifier: u32,
}

#[derive(Clone, Copy, Debug, PartialEq, Eq)]
pub struct DiscoverState {
    // When to send the next Discover.
    pub retry_at: Instant,
}

// A message that is sent again until it is answered.
#[derive(Clone, Copy, Debug, PartialEq, Eq)]
pub struct Tries {
    // When to send it next.
    pub retry_at: Instant,
    // How often it was sent.
    pub retry: u16,
}

#[derive(Clone, Copy, Debug, PartialEq, Eq)]
pub struct RequestState {
    pub tries: Tries,
    // Whom the address is requested from.
    pub server: DhcpServerInfo,
    pub requested_ip: u32,
}

// The timers of a lease, which stands beside the state.
#[derive(Clone, Copy, Debug, PartialEq, Eq)]
pub struct RenewState {
    // From here on the server is asked to renew the lease.
    pub renew_at: Instant,
    // From here on any server is.
    pub rebind_at: Instant,
    // Here the lease is over.
    pub expires_at: Instant,
    // Whether a Request was sent from rebind_at on.
    pub rebinding: bool,
}

#[derive(Clone, Copy, Debug, PartialEq, Eq)]
pub enum ClientState {
    // Starting over: a Discover is due at the next poll.
    Init,
    Discovering(DiscoverState),
    Requesting(RequestState),
    // A lease is held.
    Renewing(RenewState),
}

impl ClientState {
    // Whether a lease is held.
    pub fn has_lease(self) -> bool
        ensures { result ≡ has_lease self }
    {
        matches!(self, ClientState::Renewing(_))
    }

    // Requesting the address that a server offered, due now.
    pub fn requesting(server: DhcpServerInfo, offered: u32, now: Instant) -> ClientState
        ensures { result ≡ requesting server offered now }
    {
        ClientState::Requesting(RequestState {
            tries: Tries {
                retry_at: now,
                retry: 0,
            },
            server,
            requested_ip: offered,
        })
    }

    // Holding a lease of an ACK that was taken now.
    pub fn renewing(times: Times, lease: Duration, now: Instant) -> ClientState
        ensures { result ≡ renewing times lease now }
    {
        ClientState::Renewing(RenewState {
            renew_at: now.add(times.renew),
            rebind_at: now.add(times.rebind),
            expires_at: now.add(lease),
            rebinding: false,
        })
    }
}
