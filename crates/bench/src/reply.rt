// Replies of a server, as a case has them.
use made::{Header, OFFERED, with};

// Octets of the longest reply.
pub const MOST: usize = 540;

// Of the client that they are for, with the settings pitch_17.
const HARDWARE: [u8; 6] = [2, 0, 0, 0, 0, 17];

// Octets of the short reply.
const SHORT: usize = 300;

// Options 51, 58, 59, 1, 3, 6, 15 and the end mark: an hour, T1, T2, 255.255.255.0, one router, two DNS servers, a domain.
const TERMS: &[u8] =
    b"\x33\x04\x00\x00\x0e\x10\x3a\x04\x00\x00\x07\x08\x3b\x04\x00\x00\x0c\x4e\x01\x04\xff\xff\xff\x00\x03\x04\x0a\x00\x00\x01\x06\x08\x0a\x00\x00\x02\x0a\x00\x00\x03\x0f\x08camp.lan\xff";

// A reply of a message type to a message with this id. Options 53 and 54, then, where it is a long one, twenty of 10 octets,
// then the terms.
pub fn reply_to(id: u32, kind: u8, length: usize) -> [u8; MOST] {
    let header = Header {
        id,
        your: OFFERED,
        hardware: HARDWARE,
    };
    if length <= SHORT {
        return header.typed(kind, TERMS);
    }
    with(header.typed(kind, &many()), 489, TERMS)
}

// Options 128 to 147, of 10 octets each.
fn many() -> [u8; 240] {
    let mut options = [0; 240];
    for (option, kind) in options.chunks_exact_mut(12).zip(128..148) {
        option.copy_from_slice(&[kind, 10, 1, 2, 3, 4, 5, 6, 7, 8, 9, 10]);
    }
    options
}

// Octets of a reply that a case fills with a value.
pub fn fill(reply: &mut [u8], from: usize, count: usize, value: u8) {
    for octet in reply.iter_mut().skip(from).take(count) {
        *octet = value;
    }
}
