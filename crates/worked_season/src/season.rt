// The season, call by call.
use crate::digest::Digest;
use crate::server::{Heard, Reply, Told, delay};
use crate::shown::At;
use crate::tally::Tally;
use client::NotTaken;
use clock::{Duration, Instant};
use made::{LENT, SEASON};
use octets::span::up_to;
use post::Post;
use reasons::Refusal;
use std::{fmt, io};

// The next call is a reply, if there is one, or a poll, so many milliseconds after the last, which was made now.
#[derive(Clone, Copy)]
struct Season {
    post: Post,
    now: Instant,
    // milliseconds from creation to the last call
    elapsed: u64,
    // how many months are over
    months: usize,
    tally: Tally,
    digest: Digest,
    // how many messages were sent, and how many NAKs
    messages: u32,
    naks: u32,
    reply: Option<Reply>,
    step: u32,
}

// What ends a season early.
#[derive(Clone, Copy)]
enum Refused {
    Poll(Refusal),
    Reply(Refusal),
}

impl fmt::Display for Refused {
    fn fmt<W: fmt::Write>(&self, f: &mut fmt::Formatter<W>) -> fmt::Result {
        let (call, refusal) = match self {
            Refused::Poll(refusal) => ("poll", refusal),
            Refused::Reply(refusal) => ("reply", refusal),
        };
        write!(f, "a {call} is {}", made::Refused(*refusal))
    }
}

// Far more than there are; a season has to end.
const MOST_CALLS: u32 = 1000000;

const DAY: u64 = 86400000;

// The months, and when each ends.
const MONTHS: [(&str, u64); 7] = [
    ("April", 30 * DAY),
    ("May", 61 * DAY),
    ("June", 91 * DAY),
    ("July", 122 * DAY),
    ("August", 153 * DAY),
    ("September", 183 * DAY),
    ("October", 214 * DAY),
];

// The season of a post, to its end.
pub fn run(rt: &impl Print, post: Post) -> io::Result<()> {
    let mut season = Season::new(post);
    for _ in 0..MOST_CALLS {
        if !season.reach(rt)? {
            return season.say(rt);
        }
        if let Err(refused) = season.call() {
            println!(rt; "{refused}")?;
            return season.say(rt);
        }
    }
    println!(rt; "the season does not end")
}

impl Season {
    fn new(post: Post) -> Season {
        Season {
            post,
            now: SEASON,
            elapsed: 0,
            months: 0,
            tally: Tally::default(),
            digest: Digest::new(),
            messages: 0,
            naks: 0,
            reply: None,
            step: 0,
        }
    }

    // On to the next call, if there is one. A month may be over before it, and with the last one the season.
    fn reach(&mut self, rt: &impl Print) -> io::Result<bool> {
        self.elapsed = self.elapsed.wrapping_add(u64::from(self.step));
        if let Some((month, end)) = MONTHS.get(self.months)
            && *end < self.elapsed
        {
            println!(rt; "{month}: {} | digest {}", self.tally.month, self.digest)?;
            self.tally = self.tally.next_month();
            self.months += 1;
        }
        if self.months == MONTHS.len() {
            return Ok(false);
        }
        let now = self.now.add(Duration { millis: self.step });
        if now.millis < self.now.millis {
            self.tally = self.tally.with(|n| n.wrapped());
        }
        self.now = now;
        Ok(true)
    }

    fn call(&mut self) -> Result<(), Refused> {
        match self.reply {
            None => self.poll(),
            Some(reply) => self.told(reply),
        }
    }

    fn poll(&mut self) -> Result<(), Refused> {
        let mut buf = [LENT; 600];
        let (post, outcome) = self.post.polled(self.now, &mut buf);
        let answer = outcome.map_err(Refused::Poll)?;
        let heard = Heard::of_datagram(up_to(&buf, answer.length));
        let sent = heard.map(|heard| heard.sent);
        self.post = post;
        self.tally = self.tally.with(|n| n.polled(answer, sent));
        self.digest = self.digest.with_poll(answer, &buf);
        self.step = answer.wake.millis.wrapping_sub(self.now.millis);
        if answer.length != 0 {
            self.sent(heard);
        }
        Ok(())
    }

    // A message was sent, and the server may send a reply.
    fn sent(&mut self, heard: Option<Heard>) {
        let number = self.messages;
        self.messages = number.saturating_add(1);
        self.reply = heard.and_then(|heard| heard.reply(number, self.elapsed));
        if self.reply.is_some() {
            self.step = delay(number);
        }
    }

    // After a reply comes a poll, at once.
    fn told(&mut self, reply: Reply) -> Result<(), Refused> {
        let (post, outcome) = reply.taken_by(self.post, self.naks, self.now);
        self.post = post;
        if let Err(NotTaken::Refused(refusal)) = outcome {
            return Err(Refused::Reply(refusal));
        }
        if outcome.is_ok() {
            self.tally = self.tally.with(|n| n.told(reply.told));
        }
        self.digest = self.digest.with_reply(outcome);
        if reply.told == Told::Nak {
            self.naks = self.naks.saturating_add(1);
        }
        self.reply = None;
        self.step = 0;
        Ok(())
    }

    // The end of the season.
    fn say(&self, rt: &impl Print) -> io::Result<()> {
        let counts = self.tally.whole;
        println!(rt; "season: {counts} | digest {}", self.digest)?;
        println!(rt; "post: {}", At(self.post, self.now))
    }
}
