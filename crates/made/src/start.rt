// Settings, states, leases and addresses that the examples begin with.
ghost use Rattle.std.specs.Prelude.{◌≡◌, codes};
ghost use Rattle.made.specs.Named.{with_name};
ghost use Rattle.machine.specs.declared.state.ClientState.TheVariants.{Requesting};

use crate::reply::{Header, with};
use clock::{Duration, Instant};
use lease::DhcpLease;
use machine::{ClientState, DhcpServerInfo, DiscoverState, RequestState, Tries};
use settings::{Medium, Settings};
use wire::{Addresses, Store};

// 10.0.0.9, where replies come from, and 10.0.0.1, the identifier in them.
pub const SERVER: u32 = 0x0a000009;

pub const IDENTIFIER: u32 = 0x0a000001;

pub const SERVERS: DhcpServerInfo = DhcpServerInfo {
    address: SERVER,
    identifier: IDENTIFIER,
};

// 10.0.0.50, which they offer.
pub const OFFERED: u32 = 0x0a000032;

pub const HARDWARE: [u8; 6] = [2, 0, 0, 0, 0, 1];

// MTU 1,500 on Ethernet; no name, request list, extra options or maximum. Field by field: a constant can't begin with what
// Settings::zero() gives, since it calls no function.
pub const PLAIN: Settings = Settings {
    medium: Medium::Ethernet,
    mtu: 1500,
    hardware: HARDWARE,
    offload: false,
    name: [0; 63],
    name_len: 0,
    listed: false,
    list: [0; 64],
    list_len: 0,
    extra: [0; 255],
    extra_len: 0,
    capped: false,
    maximum: Duration::ZERO,
};

// Due at 10,000.
pub const DISCOVERING: DiscoverState = DiscoverState {
    retry_at: Instant { millis: 10000 },
};

// Due at 5,000, after one Request.
pub const REQUESTING: RequestState = RequestState {
    tries: Tries {
        retry_at: Instant { millis: 5000 },
        retry: 1,
    },
    server: SERVERS,
    requested_ip: OFFERED,
};

// The state after so many Requests, the next of them due at a moment.
pub fn requesting(due: Instant, retry: u16) -> ClientState
    ensures { result ≡ Requesting (record { tries = record { retry_at = due; retry = retry }; server = SERVERS; requested_ip = OFFERED }) }
{
    ClientState::Requesting(RequestState {
        tries: Tries {
            retry_at: due,
            retry,
        },
        ..REQUESTING
    })
}

// A lease with another prefix, count of DNS servers and length of the store.
pub fn altered(lease: DhcpLease, prefix: u8, servers: usize, stored: usize) -> DhcpLease
    ensures prefix { result.prefix ≡ prefix }
    ensures dns { result.dns ≡ record { list = lease.dns.list; count = servers } }
    ensures options { result.options ≡ record { bytes = lease.options.bytes; len = stored } }
    ensures server { result.server ≡ lease.server }
    ensures address { result.address ≡ lease.address }
    ensures router { result.router ≡ lease.router }
{
    DhcpLease {
        prefix,
        dns: Addresses {
            count: servers,
            ..lease.dns
        },
        options: Store {
            len: stored,
            ..lease.options
        },
        ..lease
    }
}

// What a lent buffer holds before a poll.
pub const LENT: u8 = 0xa5;

// When a season begins, and the number that its generator begins with.
pub const SEASON: Instant = Instant { millis: 4000000000 };

pub const SEED: u64 = 20260401;

// A reply to a fresh client that has sent nothing.
pub const HEADER: Header = Header {
    id: 1,
    your: OFFERED,
    hardware: HARDWARE,
};

// The settings with a host name, if it fits.
#[tactic(auto, using(choice::proofs::Choices::if_true, choice::proofs::Choices::if_false), unfolding(crate::specs::Named::with_name))]
pub fn named(settings: Settings, name: &[u8]) -> Settings
    ensures { result ≡ with_name settings name.now }
{
    if 63 < name.len() {
        return settings;
    }
    Settings {
        name: with(settings.name, 0, name),
        name_len: name.len(),
        ..settings
    }
}

const PITCH: Settings = Settings {
    hardware: [2, 0, 0, 0, 0, 17],
    ..PLAIN
};

// A season's settings: hardware address 02:00:00:00:00:11, MTU 1,500, name pitch-17, and no request list, extra options or maximum.
pub fn pitch_17() -> Settings
    ensures { result ≡ with_name PITCH (codes "pitch-17") }
{
    named(PITCH, b"pitch-17")
}
