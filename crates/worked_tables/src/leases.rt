// Leases that come, change and go.
use crate::print::{by_hand, by_lease};
use crate::start::{PLAIN, POST, ROUTER, four_addresses, four_routes, installed};
use lease::nothing;
use std::io;
use tables::{Installed, Tables};

pub fn examples(rt: &impl Print) -> io::Result<()> {
    generations(rt)?;
    order(rt)?;
    lost(rt)?;
    stale(rt)
}

// Leases one after another, the first in the place of the one that is held; what is left after them.
fn in_turn(
    rt: &impl Print,
    mut tables: Tables,
    mut held: Installed,
    leases: &[(&str, Installed)],
) -> io::Result<Tables> {
    for (asked, lease) in leases {
        tables = by_lease(rt, asked, tables.dhcpv4_apply(*lease, held))?;
        held = *lease;
    }
    Ok(tables)
}

// Each lease alone, in the place of the one that is held.
fn each(
    rt: &impl Print,
    tables: Tables,
    held: Installed,
    leases: &[(&str, Installed)],
) -> io::Result<()> {
    for lease in leases {
        in_turn(rt, tables, held, &[*lease])?;
    }
    Ok(())
}

// The generation counts each run, and purging follows address and prefix.
fn generations(rt: &impl Print) -> io::Result<()> {
    let leases = [
        ("first ACK", PLAIN),
        ("stored options alone", PLAIN),
        ("a router", installed(POST, 24, ROUTER)),
        ("another prefix", installed(POST, 16, ROUTER)),
        (
            "another address and router",
            installed(POST + 1, 16, ROUTER + 1),
        ),
        ("no lease", nothing()),
    ];
    let mut last = in_turn(rt, Tables::new(), nothing(), &leases)?;
    last.config_generation = 4294967295;
    each(
        rt,
        last,
        nothing(),
        &[("after 4,294,967,295 changes", PLAIN)],
    )
}

// "an ACK with another address gives [manual, DHCP]. An unchanged entry keeps its place."
fn order(rt: &impl Print) -> io::Result<()> {
    let leased = Tables::new().dhcpv4_apply(PLAIN, nothing()).tables;
    let both = by_hand(
        rt,
        "one by hand behind DHCP's",
        leased.add_address(ROUTER, 24),
    )?;
    let leases = [
        ("a router alone", installed(POST, 24, ROUTER)),
        ("another address", installed(POST + 1, 24, ROUTER)),
    ];
    each(rt, both, PLAIN, &leases)
}

// "A full table loses the address or route, and the lease stands"; what is lost stays lost until its value changes.
fn lost(rt: &impl Print) -> io::Result<()> {
    let full = in_turn(
        rt,
        four_addresses(),
        nothing(),
        &[("four by hand, ACK", PLAIN)],
    )?;
    let room = by_hand(rt, "10.0.0.4/24 dropped", full.drop_address(0x0a000004, 24))?;
    let held = installed(POST, 24, ROUTER);
    let still = in_turn(
        rt,
        room,
        PLAIN,
        &[("ACK with DNS added", PLAIN), ("ACK with a router", held)],
    )?;
    let leases = [
        ("no lease", nothing()),
        ("ACK with another address", installed(POST + 1, 24, ROUTER)),
    ];
    each(rt, still, held, &leases)?;
    each(
        rt,
        four_routes(),
        nothing(),
        &[("four routes by hand, ACK", held)],
    )
}

// Entries of DHCP's without a lease: an address takes out stale ones, a route only if there is a router.
fn stale(rt: &impl Print) -> io::Result<()> {
    let stale = Tables::new()
        .dhcpv4_apply(installed(7, 8, 9), nothing())
        .tables;
    let leases = [
        ("stale entries, ACK without router", PLAIN),
        (
            "stale entries, ACK with router",
            installed(POST, 24, ROUTER),
        ),
    ];
    each(rt, stale, nothing(), &leases)
}
