// What leases do to tables in which other entries stand.
use crate::calls::Post;
use crate::start::{ack, awaiting, held, holding};
use made::with;
use std::io;
use tables::Tables;

pub fn examples(rt: &impl Print) -> io::Result<()> {
    order(rt)?;
    lost_address(rt)?;
    stale(rt)
}

// With a DNS server.
fn ack_with_dns() -> [u8; 600] {
    ack(&[6, 4, 1, 1, 1, 1])
}

// A reply whose your-address is 10.0.0.51.
fn of_51(reply: [u8; 600]) -> [u8; 600] {
    with(reply, 16, &[10, 0, 0, 51])
}

// An unchanged entry keeps its place; another address comes behind those put in by hand.
fn order(rt: &impl Print) -> io::Result<()> {
    let post = held();
    let by_hand = Post {
        tables: post.tables.add_address(0x0a000007, 24).tables,
        ..post
    };
    by_hand
        .told(rt, "10.0.0.7/24 by hand, ACK with DNS", &ack_with_dns(), 0)?
        .told(rt, "ACK of 10.0.0.51", &of_51(ack_with_dns()), 0)?;
    Ok(())
}

// 10.0.0.1/24 and on, so many.
fn addresses(count: u32) -> Tables {
    let mut tables = Tables::new();
    for n in 0..count {
        tables = tables.add_address(0x0a000001u32.wrapping_add(n), 24).tables;
    }
    tables
}

// "A full table loses the address or route, and the lease stands"; what is lost stays so until its value changes.
fn lost_address(rt: &impl Print) -> io::Result<()> {
    let full = awaiting(addresses(4)).told(rt, "4 addresses by hand, ACK", &ack(&[]), 0)?;
    let room = Tables {
        config_generation: 1,
        ..addresses(3)
    };
    Post {
        tables: room,
        ..full
    }
    .told(rt, "10.0.0.4/24 gone, equal ACK", &ack(&[]), 0)?
    .told(rt, "ACK with DNS", &ack_with_dns(), 0)?
    .told(rt, "ACK of 10.0.0.51", &of_51(ack(&[])), 0)?;
    Ok(())
}

// Entries of DHCP's, 10.0.0.51/24 and the route by 10.0.0.3, of a client that holds no lease.
fn stale(rt: &impl Print) -> io::Result<()> {
    let other = holding(of_51(ack(&[3, 4, 10, 0, 0, 3])));
    let post = awaiting(other.tables);
    post.reset(rt, "entries without a lease, reset")?;
    post.told(rt, "entries without a lease, ACK", &ack(&[]), 0)?;
    post.told(
        rt,
        "entries without a lease, ACK with router",
        &ack(&[3, 4, 10, 0, 0, 1]),
        0,
    )?;
    Ok(())
}
