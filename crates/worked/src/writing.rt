// Document 01's examples of messages and their numbers, and RFC 1071's worked sum.
use clock::Rand;
use made::{answered, found, line};
use message::sum::ones_sum;
use message::{Endpoints, Lists, Message, message_len, write_message};
use octets::span::up_to;
use octets::word::{read_u16, read_u32, write_u16, write_u32};
use std::io;

pub fn examples(rt: &impl Print) -> io::Result<()> {
    words(rt)?;
    sums(rt)?;
    longest(rt)?;
    refusals(rt)?;
    full_sum(rt)?;
    rest_kept(rt)
}

// RFC 791, appendix B: the most significant octet first. A word that does not fit is not written.
fn words(rt: &impl Print) -> io::Result<()> {
    let mut buf = [0u8; 6];
    write_u32(&mut buf, 2, 0x0a000007);
    write_u16(&mut buf, 0, 0x10110);
    line(
        rt,
        "octets written of a word over the end",
        write_u16(&mut buf, 5, 1),
    )?;
    found(rt, "10.0.0.7, written and read", read_u32(&buf, 2))?;
    found(rt, "65,808 in 16 bits", read_u16(&buf, 0))?;
    found(rt, "a word over the end", read_u16(&buf, 5))
}

// RFC 1071, section 3: the words 0001, f203, f4f5 and f6f7 sum to ddf2, 56,818, and an odd octet is the high one of a
// word: 0001, f203, f4f5 and f600 sum to dcfb, 56,571 (1 + 61,955 + 62,709 + 62,976 = 187,641 = 2 * 65,536 + 56,569, and 2
// carried).
fn sums(rt: &impl Print) -> io::Result<()> {
    let octets = [0x00u8, 0x01, 0xf2, 0x03, 0xf4, 0xf5, 0xf6, 0xf7];
    line(rt, "RFC 1071's sum", ones_sum(0, &octets))?;
    line(rt, "of its first 7 octets", ones_sum(0, up_to(&octets, 7)))?;
    line(rt, "of none", ones_sum(0, up_to(&octets, 0)))
}

// A Request in Requesting of MTU 576.
fn requesting() -> Message {
    Message {
        kind: 3,
        id: 1,
        client: 0,
        hardware: [2, 0, 0, 0, 0, 1],
        requested: Some(0x0a000007),
        server: Some(0x0a000001),
        size: Some(508),
    }
}

fn everyone() -> Endpoints {
    Endpoints {
        source: 0,
        destination: 0xffffffff,
    }
}

// One item of 253 octets of data.
fn extra() -> [u8; 255] {
    let mut items = [0u8; 255];
    items[0] = 224;
    items[1] = 253;
    items
}

// No name, codes 1, 3 and 6, and no extra options.
const PLAIN: Lists<'static> = Lists {
    name: &[],
    list: Some(&[1, 3, 6]),
    extra: &[],
};

// "MTU 576, all lists full (655)": as a datagram 663.
fn longest(rt: &impl Print) -> io::Result<()> {
    let full = Lists {
        name: &[65; 63],
        list: Some(&[1; 64]),
        extra: &extra(),
    };
    answered(rt, "all lists full", message_len(requesting(), full))?;
    let mut buf = [0u8; 663];
    answered(
        rt,
        "as a datagram",
        write_message(&mut buf, everyone(), false, requesting(), full),
    )
}

// Name (3), RequestList (4), ExtraOptions (5) and ShortBuffer (8), each at its limit, and in that order.
fn refusals(rt: &impl Print) -> io::Result<()> {
    let name = [65u8; 64];
    let list = [1u8; 65];
    let items = [0u8; 256];
    let named = up_to(&name, 63);
    let listed = up_to(&list, 64);
    for (asked, name, list, extra) in [
        ("name of 64 octets", &name[..], &list[..], &items[..]),
        ("request list of 65 codes", named, &list[..], &items[..]),
        ("extra options of 256 octets", named, listed, &items[..]),
        ("extra options 12, 2, 65", &[], &[1, 3, 6], &[12, 2, 65]),
    ] {
        let lists = Lists {
            name,
            list: Some(list),
            extra,
        };
        answered(rt, asked, message_len(requesting(), lists))?;
    }
    short_buffers(rt)
}

// A Request of 282 octets.
fn short_buffers(rt: &impl Print) -> io::Result<()> {
    let mut exact = [0u8; 282];
    into(rt, "into 282 octets", &mut exact)?;
    let mut short = [0u8; 281];
    into(rt, "into 281 octets", &mut short)?;
    let mut hundred = [0u8; 100];
    into(rt, "into 100 octets", &mut hundred)?;
    into(rt, "into no octets", &mut [])
}

fn into(rt: &impl Print, asked: &str, buf: &mut [u8]) -> io::Result<()> {
    answered(
        rt,
        asked,
        write_message(buf, everyone(), false, requesting(), PLAIN),
    )
}

// The two octets at 6, as a number.
fn field(rt: &impl Print, asked: &str, buf: &[u8]) -> io::Result<()> {
    found(rt, asked, read_u16(buf, 6))
}

// A Discover whose checksum computes to 0: hardware address 02:00:00:00:00:01, MTU 1,500, the id drawn by generator 36,490.
fn full_sum(rt: &impl Print) -> io::Result<()> {
    let drawn = Rand::new(36490).rand_u32();
    let discover = Message {
        kind: 1,
        id: drawn.value,
        client: 0,
        hardware: [2, 0, 0, 0, 0, 1],
        requested: None,
        server: None,
        size: Some(1432),
    };
    let mut buf = [0u8; 300];
    answered(
        rt,
        "a Discover",
        write_message(&mut buf, everyone(), false, discover, PLAIN),
    )?;
    field(rt, "its checksum, which computes to 0", &buf)?;
    let mut by_device = [7u8; 300];
    let _ = write_message(&mut by_device, everyone(), true, discover, PLAIN);
    field(rt, "where the device does it", &by_device)
}

// "Bytes after the datagram keep their value"
fn rest_kept(rt: &impl Print) -> io::Result<()> {
    let mut buf = [165u8; 300];
    let _ = write_message(&mut buf, everyone(), false, requesting(), PLAIN);
    line(rt, "the end mark, octet 281", buf[281])?;
    line(rt, "octet 282", buf[282])?;
    line(rt, "octet 299", buf[299])
}
