// Document 01's examples of addresses, replies and the store, and option walks from RFC 2132's text.
use made::{Header, YesNo, answered, found, line, test};
use octets::address::x_is_unicast;
use octets::span::{put_bytes_at, up_to};
use reasons::{PassedOver, Refusal};
use std::io;
use std::net::Ipv4Addr;
use wire::reply::{
    check_header, is_addressed_to, message_type, option_address, option_addresses, option_len,
    option_octet, option_seconds, router, transaction_id, your_ip,
};
use wire::{Place, Store};

pub fn examples(rt: &impl Print) -> io::Result<()> {
    addresses(rt)?;
    header(rt)?;
    walks(rt)?;
    equal_codes(rt)?;
    lengths(rt)?;
    routers(rt)?;
    name_servers(rt)?;
    store(rt)?;
    stores_apart(rt)
}

// "refuses 0.0.0.0, 255.255.255.255 and 224.0.0.0 to 239.255.255.255 only"
fn addresses(rt: &impl Print) -> io::Result<()> {
    for address in [
        0, 1, 0xdfffffff, 0xe0000000, 0xefffffff, 0xf0000000, 0xfffffffe, 0xffffffff,
    ] {
        let unicast = YesNo(x_is_unicast(address));
        println!(rt; "{} is unicast: {unicast}", Ipv4Addr::from(address))?;
    }
    Ok(())
}

// A reply of 600 octets: id 1 for hardware address 0, your-address 10.0.0.7, these options, and padding.
fn reply_with(options: &[u8]) -> [u8; 600] {
    let header = Header {
        id: 1,
        your: 0x0a000007,
        hardware: [0; 6],
    };
    header.reply(options)
}

// 0, or the number of the reason to pass it over.
fn checked(rt: &impl Print, asked: &str, check: Result<(), PassedOver>) -> io::Result<()> {
    line(rt, asked, check.map_or_else(u32::from, |_| 0))
}

// "20 under 240 bytes (239); 21 header (opcode 1)", and the other three that are 21
fn header(rt: &impl Print) -> io::Result<()> {
    let good = reply_with(&[]);
    checked(rt, "a reply of 240 octets", check_header(up_to(&good, 240)))?;
    checked(rt, "a reply of 239 octets", check_header(up_to(&good, 239)))?;
    checked(rt, "a reply of no octets", check_header(up_to(&good, 0)))?;
    let mut other = good;
    other[0] = 1;
    checked(rt, "opcode 1", check_header(&other))?;
    header_fields(rt, good)
}

fn header_fields(rt: &impl Print, good: [u8; 600]) -> io::Result<()> {
    let mut kind = good;
    kind[1] = 2;
    checked(rt, "hardware type 2", check_header(&kind))?;
    let mut length = good;
    length[2] = 16;
    checked(rt, "hardware length 16", check_header(&length))?;
    let mut magic = good;
    magic[239] = 98;
    checked(rt, "another magic cookie", check_header(&magic))?;
    fields(rt, &good)
}

fn fields(rt: &impl Print, good: &[u8]) -> io::Result<()> {
    found(rt, "transaction id", transaction_id(good))?;
    found(
        rt,
        "transaction id of 7 octets",
        transaction_id(up_to(good, 7)),
    )?;
    found(rt, "your-address 10.0.0.7", your_ip(good))?;
    test(rt, "for 00:00:00:00:00:00", is_addressed_to(good, [0; 6]))?;
    test(
        rt,
        "for 00:00:00:00:00:01",
        is_addressed_to(good, [0, 0, 0, 0, 0, 1]),
    )
}

// RFC 2132: 3.1 "The code for the pad option is 0, and its length is 1 octet", 3.2 "The code for the end option is 255, and
// its length is 1 octet", 3.5 "The minimum length for the router option is 4 octets", 9.6 "The code for this option is 53,
// and its length is 1". Document 01: "An option cut short by the end of the reply ends the walk, without refusal."
fn walks(rt: &impl Print) -> io::Result<()> {
    let padded = reply_with(&[
        0, 0, 53, 1, 5, 0, 3, 4, 10, 0, 0, 1, 255, 51, 4, 0, 0, 14, 16,
    ]);
    whole(rt, &padded)?;
    cut(rt, &padded)
}

fn whole(rt: &impl Print, padded: &[u8]) -> io::Result<()> {
    found(rt, "53 after two pads", message_type(padded))?;
    found(rt, "3 after a pad", option_len(padded, 3))?;
    found(rt, "51 after the end mark", option_len(padded, 51))?;
    found(rt, "code 0", option_len(padded, 0))?;
    found(rt, "code 255", option_len(padded, 255))
}

// The options take octets 240 to 251: 3 is whole with 252 octets, and cut with 251.
fn cut(rt: &impl Print, padded: &[u8]) -> io::Result<()> {
    found(
        rt,
        "3 of a reply that ends with it",
        option_len(up_to(padded, 252), 3),
    )?;
    found(rt, "3 cut by one octet", option_len(up_to(padded, 251), 3))?;
    found(
        rt,
        "53 before an option that is cut",
        message_type(up_to(padded, 251)),
    )?;
    found(
        rt,
        "3 cut after its code",
        option_len(up_to(padded, 247), 3),
    )?;
    found(
        rt,
        "53 of a reply without options",
        message_type(up_to(padded, 240)),
    )?;
    found(
        rt,
        "53 of a reply of no octets",
        message_type(up_to(padded, 0)),
    )
}

// "Of two options with one code the first counts"; a first 53 of 2 octets before a good one counts, and a first 51 of 5
fn equal_codes(rt: &impl Print) -> io::Result<()> {
    let two = reply_with(&[51, 4, 0, 0, 0, 60, 51, 4, 0, 0, 0, 90, 255]);
    found(rt, "51 of 60 s, then 51 of 90 s", option_seconds(&two, 51))?;
    let types = reply_with(&[53, 2, 5, 5, 53, 1, 5, 255]);
    found(rt, "53 of 2 octets, then a good one", message_type(&types))?;
    let times = reply_with(&[51, 5, 0, 0, 0, 60, 0, 51, 4, 0, 0, 0, 90, 255]);
    found(
        rt,
        "51 of 5 octets, then a good one",
        option_seconds(&times, 51),
    )
}

// "takes the first 4 bytes of longer data and fails on 3"; "needs exactly 4"
fn lengths(rt: &impl Print) -> io::Result<()> {
    let five = reply_with(&[54, 5, 10, 0, 0, 1, 9, 58, 3, 0, 0, 1, 59, 0, 255]);
    lengths_of(rt, &five)
}

fn lengths_of(rt: &impl Print, five: &[u8]) -> io::Result<()> {
    found(
        rt,
        "address of 5 octets, 10.0.0.1",
        option_address(five, 54),
    )?;
    found(rt, "address of 3 octets", option_address(five, 58))?;
    found(rt, "seconds of 3 octets", option_seconds(five, 58))?;
    found(rt, "address of no octets", option_address(five, 59))?;
    found(rt, "length of no octets", option_len(five, 59))?;
    found(rt, "octet 4 of 5", option_octet(five, 54, 4))?;
    found(rt, "octet 5 of 5", option_octet(five, 54, 5))
}

// "Router: first address, if unicast"
fn routers(rt: &impl Print) -> io::Result<()> {
    let good = reply_with(&[3, 8, 10, 0, 0, 1, 0, 0, 0, 0, 255]);
    found(rt, "routers 10.0.0.1, 0.0.0.0", router(&good))?;
    let zero = reply_with(&[3, 8, 0, 0, 0, 0, 10, 0, 0, 1, 255]);
    found(rt, "routers 0.0.0.0, 10.0.0.1", router(&zero))?;
    let none = reply_with(&[255]);
    found(rt, "no router option", router(&none))
}

// "DNS: groups of 4, unicast only, first 3"
fn name_servers(rt: &impl Print) -> io::Result<()> {
    let mixed = reply_with(&[
        6, 19, 0, 0, 0, 0, 1, 1, 1, 1, 224, 0, 0, 1, 2, 2, 2, 2, 9, 9, 9, 255,
    ]);
    servers(
        rt,
        "DNS 0.0.0.0, 1.1.1.1, 224.0.0.1, 2.2.2.2 and 3 octets",
        option_addresses(&mixed, 6),
    )?;
    let four = reply_with(&[6, 16, 1, 1, 1, 1, 2, 2, 2, 2, 3, 3, 3, 3, 4, 4, 4, 4, 255]);
    servers(
        rt,
        "DNS 1.1.1.1, 2.2.2.2, 3.3.3.3, 4.4.4.4",
        option_addresses(&four, 6),
    )?;
    servers(rt, "no DNS option", option_addresses(&four, 5))
}

// The count, then the three places.
fn servers(rt: &impl Print, asked: &str, found: wire::Addresses) -> io::Result<()> {
    line(rt, asked, found.count)?;
    let [first, second, third] = found.list;
    line(rt, "first", first)?;
    line(rt, "second", second)?;
    line(rt, "third", third)
}

fn got(rt: &impl Print, asked: &str, place: Result<Option<Place>, Refusal>) -> io::Result<()> {
    match place {
        Ok(Some(place)) => {
            line(rt, asked, place.start)?;
            line(rt, "of length", place.len)
        }
        Ok(None) => found::<u32>(rt, asked, None),
        Err(refusal) => answered::<u32>(rt, asked, Err(refusal)),
    }
}

// What is stored of a reply with options 53, 54 and 1, an option 100 of so many octets, and an option 101 behind it.
fn kept_with(octets: u8) -> Store {
    let mut long = reply_with(&[
        53, 1, 5, 54, 4, 10, 0, 0, 1, 1, 4, 255, 255, 255, 0, 100, octets,
    ]);
    put_bytes_at(&mut long, 257 + usize::from(octets), &[101, 1, 7, 255]);
    Store::of_reply(&long)
}

// "An option that does not fit the store is skipped; a later, smaller one is still kept." 53, 54 and 1 take 15 octets: an
// option 100 of 240 octets would need 242, one of 239 has its data at 17 and leaves none free.
fn store(rt: &impl Print) -> io::Result<()> {
    let kept = kept_with(240);
    line(rt, "octets in use without 100", kept.len)?;
    got(rt, "53 in the store", kept.get(53))?;
    got(rt, "100 of 240 octets in the store", kept.get(100))?;
    got(rt, "101 in the store", kept.get(101))?;
    full(rt)
}

fn full(rt: &impl Print) -> io::Result<()> {
    let kept = kept_with(239);
    line(rt, "octets in use with 100", kept.len)?;
    got(rt, "100 of 239 octets in the store", kept.get(100))?;
    got(rt, "101 in a full store", kept.get(101))
}

// A store that is not whole: an item cut short, and more in use than there is. Unused octets don't count.
fn stores_apart(rt: &impl Print) -> io::Result<()> {
    let one = Store::new().push(12, &[65, 66]);
    got(rt, "12, 2, 65, 66", one.get(12))?;
    let mut cut = one;
    cut.len = 3;
    got(rt, "12, 2, 65", cut.get(12))?;
    let mut over = one;
    over.len = 257;
    got(rt, "257 octets in use", over.get(12))?;
    let mut other = one;
    other.bytes[4] = 9;
    test(
        rt,
        "stores that differ past their use are equal",
        one.equals(other),
    )?;
    test(rt, "stores that differ in use are equal", one.equals(cut))
}
