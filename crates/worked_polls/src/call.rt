// What a line says.
use crate::line::numbers_in;
use clock::{Duration, Instant};
use machine::{ClientState, RenewState};
use made::{HEADER, Header, PLAIN, requesting, with};
use octets::codes::{ACK, NAK, OFFER};
use settings::Settings;

#[derive(Clone, Copy)]
pub enum Call {
    // A new post.
    New {
        millis: u32,
        seed: u32,
        settings: Settings,
    },
    // A poll so many milliseconds on, with a buffer of so many octets; the word at a place of what was lent is shown.
    Poll {
        step: Duration,
        room: usize,
        place: usize,
    },
    // A reply so many milliseconds on.
    Reply {
        step: Duration,
        told: Told,
    },
    State(ClientState),
}

// A reply's message type, and two options of four octets, by kind and number, as the line has them. Kind 0 is padding, as RFC
// 2132 has it, and no Option: the number's octets follow it all the same.
#[derive(Clone, Copy)]
pub struct Told {
    kind: u8,
    options: [(u32, u32); 2],
}

impl Call {
    // The call of a line, if it has one.
    pub fn of(line: &[u8]) -> Option<Call> {
        let key = line.first()?;
        let numbers = numbers_in(line);
        match key {
            b'#' => None,
            b'n' => Some(new(numbers)),
            b'p' => Some(poll(numbers)),
            b'O' => Some(reply(OFFER, numbers)),
            b'A' => Some(reply(ACK, numbers)),
            b'N' => Some(reply(NAK, numbers)),
            b'R' => Some(Call::State(awaiting(numbers))),
            _ => Some(Call::State(renewing(numbers))),
        }
    }
}

fn new(numbers: [u32; 10]) -> Call {
    let [millis, seed, ..] = numbers;
    let settings = settings(numbers);
    Call::New {
        millis,
        seed,
        settings,
    }
}

// MTU; maximum, for which the text has 0 where there is none; length of the name; whether there is a request list, and how
// many codes; octets of extra options; whether the device does the checksum: from the third number on.
//
// A name of the letter n, request codes 3, and extra options of kind 1, with one octet.
pub fn settings(numbers: [u32; 10]) -> Settings {
    let [
        _,
        _,
        mtu,
        maximum,
        name_len,
        listed,
        list_len,
        extra_len,
        offload,
        _,
    ] = numbers;
    Settings {
        mtu: (mtu % 65536) as u16,
        offload: offload == 1,
        name: [b'n'; 63],
        name_len: name_len as usize,
        listed: listed == 1,
        list: [3; 64],
        list_len: list_len as usize,
        extra: [1; 255],
        extra_len: extra_len as usize,
        capped: maximum != 0,
        maximum: Duration { millis: maximum },
        ..PLAIN
    }
}

fn poll(numbers: [u32; 10]) -> Call {
    let [millis, room, place, ..] = numbers;
    Call::Poll {
        step: Duration { millis },
        room: room as usize,
        place: place as usize,
    }
}

fn reply(kind: u8, numbers: [u32; 10]) -> Call {
    let [millis, first, a, second, b, ..] = numbers;
    Call::Reply {
        step: Duration { millis },
        told: Told {
            kind,
            options: [(first, a), (second, b)],
        },
    }
}

fn awaiting(numbers: [u32; 10]) -> ClientState {
    let [millis, retry, ..] = numbers;
    requesting(Instant { millis }, (retry % 65536) as u16)
}

fn renewing(numbers: [u32; 10]) -> ClientState {
    let [renew, rebind, expires, ..] = numbers;
    ClientState::Renewing(RenewState {
        renew_at: Instant { millis: renew },
        rebind_at: Instant { millis: rebind },
        expires_at: Instant { millis: expires },
        rebinding: false,
    })
}

impl Told {
    // The reply to the client, with mask 255.255.255.0 before the options.
    pub fn reply(self, id: u32) -> [u8; 300] {
        let [first, second] = self.options;
        let reply = Header { id, ..HEADER }.typed(self.kind, &[1, 4, 255, 255, 255, 0]);
        with(with(reply, 255, &option(first)), 261, &option(second))
    }
}

// Only 0 itself has no length: of a larger kind the last eight bits are written, and 4 behind them.
fn option((kind, number): (u32, u32)) -> [u8; 6] {
    let [a, b, c, d] = number.to_be_bytes();
    let length = if kind == 0 { 0 } else { 4 };
    [(kind % 256) as u8, length, a, b, c, d]
}
