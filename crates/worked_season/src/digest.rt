// Adler-32, over all that the post answers.
use client::{NotTaken, PollAnswer};
use std::fmt;

#[derive(Clone, Copy)]
pub struct Digest {
    a: u32,
    b: u32,
}

const MODULUS: u32 = 65521;

impl Digest {
    pub fn new() -> Digest {
        Digest { a: 1, b: 0 }
    }

    // A poll's answer, and the whole buffer after it.
    pub fn with_poll(self, answer: PollAnswer, buf: &[u8]) -> Digest {
        self.with_word(u32::try_from(answer.length).unwrap_or(u32::MAX))
            .with_word(answer.source)
            .with_word(answer.destination)
            .with_word(answer.wake.millis)
            .with_octet(u8::from(answer.purge))
            .with(buf)
    }

    // A reply's outcome: the number of why it is not taken, 0 where it is, and whether link state is to be purged.
    pub fn with_reply(self, outcome: Result<bool, NotTaken>) -> Digest {
        let number = outcome.map_or_else(u32::from, |_| 0);
        self.with_octet(u8::try_from(number).unwrap_or(u8::MAX))
            .with_octet(u8::from(outcome == Ok(true)))
    }

    fn with_word(self, word: u32) -> Digest {
        self.with(&word.to_be_bytes())
    }

    fn with(self, octets: &[u8]) -> Digest {
        octets
            .iter()
            .fold(self, |digest, octet| digest.with_octet(*octet))
    }

    // Neither sum wraps: both are below the modulus before.
    fn with_octet(self, octet: u8) -> Digest {
        let a = self.a.wrapping_add(u32::from(octet)) % MODULUS;
        Digest {
            a,
            b: self.b.wrapping_add(a) % MODULUS,
        }
    }
}

impl fmt::Display for Digest {
    fn fmt<W: fmt::Write>(&self, f: &mut fmt::Formatter<W>) -> fmt::Result {
        write!(f, "{:04x}{:04x}", self.b, self.a)
    }
}
