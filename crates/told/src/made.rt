// Parts of a post, as records tell them. Behind a no nothing is read.
use crate::post::Post;
use client::Session;
use clock::{Duration, Instant, Rand};
use lease::DhcpLease;
use machine::{ClientState, DhcpServerInfo, DiscoverState, RenewState, RequestState, Tries};
use settings::{Medium, Settings};
use sheet::{Malformed, Octets, Record, Value};
use tables::{IfaceAddr, Route, Tables};
use wire::{Addresses, Store};

pub fn start(record: &Record<'_>) -> Post {
    let [moment, state, ..] = record.values;
    Post::new(instant(moment), rand(state))
}

pub fn settings(record: &Record<'_>) -> Result<Settings, Malformed> {
    let [
        medium,
        mtu,
        hardware_at,
        hardware_len,
        offload,
        name_at,
        name_len,
        listed,
        list_at,
        list_len,
        extra_at,
        extra_len,
        capped,
        maximum,
        ..
    ] = record.values;
    let hardware = record.octets(hardware_at, hardware_len);
    if hardware.len() != 6 {
        return Err(Malformed::NoRoom);
    }
    let name = record.octets(name_at, name_len);
    let listed = listed.is_yes();
    let list = if listed {
        record.octets(list_at, list_len)
    } else {
        Octets::none()
    };
    let extra = record.octets(extra_at, extra_len);
    let capped = capped.is_yes();
    Ok(Settings {
        medium: medium_of(medium),
        mtu: mtu.to(),
        hardware: hardware.to_array(),
        offload: offload.is_yes(),
        name: name.to_array(),
        name_len: name.len(),
        listed,
        list: list.to_array(),
        list_len: list.len(),
        extra: extra.to_array(),
        extra_len: extra.len(),
        capped,
        maximum: Duration {
            millis: if capped { maximum.to() } else { 0 },
        },
    })
}

// Any other number is taken as Ip. The numbers are the records' own (docs/TRACE.md), so this, and number_of in told.rt, are no
// impls of Medium.
fn medium_of(number: Value) -> Medium {
    match number.to::<u8>() {
        0 => Medium::Ethernet,
        2 => Medium::Ieee802154,
        _ => Medium::Ip,
    }
}

pub fn ignores_naks(record: &Record<'_>) -> bool {
    let [.., ignore_naks, _] = record.values;
    ignore_naks.is_yes()
}

pub fn init(record: &Record<'_>) -> Session {
    let [id, ..] = record.values;
    session(id, ClientState::Init)
}

pub fn discovering(record: &Record<'_>) -> Session {
    let [id, retry_at, ..] = record.values;
    session(
        id,
        ClientState::Discovering(DiscoverState {
            retry_at: instant(retry_at),
        }),
    )
}

pub fn requesting(record: &Record<'_>) -> Session {
    let [id, retry_at, retry, server, identifier, requested, ..] = record.values;
    session(
        id,
        ClientState::Requesting(RequestState {
            tries: Tries {
                retry_at: instant(retry_at),
                retry: retry.to(),
            },
            server: server_info(server, identifier),
            requested_ip: requested.to(),
        }),
    )
}

pub fn renewing(record: &Record<'_>) -> Session {
    let [id, renew_at, rebind_at, expires_at, rebinding, ..] = record.values;
    session(
        id,
        ClientState::Renewing(RenewState {
            renew_at: instant(renew_at),
            rebind_at: instant(rebind_at),
            expires_at: instant(expires_at),
            rebinding: rebinding.is_yes(),
        }),
    )
}

fn session(id: Value, state: ClientState) -> Session {
    Session {
        state,
        transaction_id: id.to(),
    }
}

fn server_info(address: Value, identifier: Value) -> DhcpServerInfo {
    DhcpServerInfo {
        address: address.to(),
        identifier: identifier.to(),
    }
}

fn instant(moment: Value) -> Instant {
    Instant {
        millis: moment.to(),
    }
}

pub fn lease(record: &Record<'_>) -> DhcpLease {
    let [
        server,
        identifier,
        address,
        prefix,
        routed,
        router,
        dns,
        first,
        second,
        third,
        options_at,
        options_len,
        ..
    ] = record.values;
    let options = record.octets(options_at, options_len);
    DhcpLease {
        server: server_info(server, identifier),
        address: address.to(),
        prefix: prefix.to(),
        router: routed.is_yes().then_some(router.to()),
        dns: Addresses {
            list: [first.to(), second.to(), third.to()],
            count: dns.to(),
        },
        options: Store {
            bytes: options.to_array(),
            len: options.len(),
        },
    }
}

// Its entries come with the lines that follow.
pub fn tables(record: &Record<'_>) -> Tables {
    let [generation, addresses, routes, ..] = record.values;
    let mut tables = Tables::new();
    tables.ip_addrs.count = addresses.to();
    tables.routes.count = routes.to();
    tables.config_generation = generation.to();
    tables
}

pub fn address(record: &Record<'_>) -> IfaceAddr {
    let [address, prefix, dhcp, ..] = record.values;
    IfaceAddr {
        address: address.to(),
        prefix: prefix.to(),
        dhcp: dhcp.is_yes(),
    }
}

pub fn route(record: &Record<'_>) -> Route {
    let [network, prefix, router, dhcp, ..] = record.values;
    Route {
        network: network.to(),
        prefix: prefix.to(),
        router: router.to(),
        dhcp: dhcp.is_yes(),
    }
}

pub fn generator(record: &Record<'_>) -> Rand {
    let [state, ..] = record.values;
    rand(state)
}

fn rand(state: Value) -> Rand {
    Rand { state: state.to() }
}
