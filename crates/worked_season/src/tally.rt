// What is counted, over a month and over the season.
use crate::server::{Sent, Told};
use client::PollAnswer;
use octets::address::BROADCAST;
use std::fmt;

#[derive(Clone, Copy, Default)]
pub struct Counts {
    polls: u32,
    silent: u32,
    discovers: u32,
    requests: u32,
    renewals: u32,
    broadcasts: u32,
    offers: u32,
    acks: u32,
    naks: u32,
    expired: u32,
    wraps: u32,
}

#[derive(Clone, Copy, Default)]
pub struct Tally {
    pub month: Counts,
    pub whole: Counts,
}

impl Tally {
    // A month begins.
    pub fn next_month(self) -> Tally {
        Tally {
            month: Counts::default(),
            ..self
        }
    }

    // What happened counts in both.
    pub(crate) fn with<F: Fn(Counts) -> Counts>(self, counted: F) -> Tally
        requires { F.IsAlwaysCallable counted }
    {
        Tally {
            month: counted(self.month),
            whole: counted(self.whole),
        }
    }
}

impl Counts {
    // A poll that sent a message, or none.
    pub fn polled(mut self, answer: PollAnswer, sent: Option<Sent>) -> Counts {
        self.polls = self.polls.saturating_add(1);
        if answer.purge {
            self.expired = self.expired.saturating_add(1);
        }
        match sent {
            None if answer.length == 0 => self.silent = self.silent.saturating_add(1),
            None => {}
            Some(Sent::Discover) => self.discovers = self.discovers.saturating_add(1),
            Some(Sent::Request) if answer.source == 0 => self.requests = self
                .requests
                .saturating_add(1),
            Some(Sent::Request) if answer.destination == BROADCAST => {
                self.broadcasts = self.broadcasts.saturating_add(1)
            }
            Some(Sent::Request) => self.renewals = self.renewals.saturating_add(1),
        }
        self
    }

    // A reply was taken.
    pub fn told(mut self, told: Told) -> Counts {
        match told {
            Told::Offer => self.offers = self.offers.saturating_add(1),
            Told::Ack => self.acks = self.acks.saturating_add(1),
            Told::Nak => self.naks = self.naks.saturating_add(1),
        }
        self
    }

    // The clock came round.
    pub fn wrapped(self) -> Counts {
        Counts {
            wraps: self.wraps.saturating_add(1),
            ..self
        }
    }
}

// In the order in which a line has them.
impl fmt::Display for Counts {
    fn fmt<W: fmt::Write>(&self, f: &mut fmt::Formatter<W>) -> fmt::Result {
        write!(f, "{} polls, {} silent", self.polls, self.silent)?;
        write!(
            f,
            " | {} Discovers, {} Requests",
            self.discovers, self.requests
        )?;
        write!(f, ", {} renewals to the server", self.renewals)?;
        write!(
            f,
            ", {} broadcast | {} OFFERs",
            self.broadcasts, self.offers
        )?;
        write!(f, ", {} ACKs, {} NAKs", self.acks, self.naks)?;
        write!(
            f,
            " | {} leases expired, {} wraps",
            self.expired, self.wraps
        )
    }
}
