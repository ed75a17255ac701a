// The clock of a single poll. It has the poll's moment and gathers deadlines; the earliest of them is when the next poll
// is wanted, at most 24 hours on. A deadline that is asked about and has not come is gathered by the asking itself, so that
// none is forgotten. A method that changes the clock hands it back.
#![tactic(auto, using(choice::proofs::Choices::if_true, choice::proofs::Choices::if_false), unfolding(crate::specs::Clocks::clock_at, crate::specs::Clocks::gathering, crate::specs::Clocks::expired_at, crate::specs::Clocks::timer_after))]

ghost use Rattle.std.specs.Prelude.{◌≡◌};
ghost use Rattle.clock.specs.Clocks.{clock_at, gathering, expired_at, timer_after};

use crate::duration::Duration;
use crate::instant::Instant;

// Polls no further apart than this leave the moments that a client holds well within 2^31 ms of the present, where they
// compare truly.
const MAX_POLL_DELAY: Duration = Duration {
    millis: 24 * 60 * 60 * 1000,
};

#[derive(Clone, Copy, Debug, PartialEq, Eq)]
pub struct Clock {
    // The poll's own moment.
    pub now: Instant,
    // When the next poll is wanted, by the deadlines gathered so far.
    pub next: Instant,
}

// A value, and the clock after it. Drawn is apart: each names what it hands on, a clock or a generator.
#[derive(Clone, Copy, Debug, PartialEq, Eq)]
pub struct Clocked<T> {
    pub value: T,
    pub clock: Clock,
}

impl Clock {
    // A poll at now that has gathered nothing: the next one is wanted a day on.
    pub fn new(now: Instant) -> Clock
        ensures { result ≡ clock_at now.millis }
    {
        Clock {
            now,
            next: now.add(MAX_POLL_DELAY),
        }
    }

    pub fn now(self) -> Instant
        ensures { result ≡ self.now }
    {
        self.now
    }

    pub fn next(self) -> Instant
        ensures { result ≡ self.next }
    {
        self.next
    }

    // Whether a deadline has come. It has at its very moment: had it not, that poll would want another there and then, and
    // so would that one.
    pub fn expired(self, deadline: Instant) -> Clocked<bool>
        ensures { result ≡ expired_at self deadline.millis }
    {
        if deadline.is_at_or_before(self.now) {
            Clocked {
                value: true,
                clock: self,
            }
        } else {
            Clocked {
                value: false,
                clock: self.schedule(deadline),
            }
        }
    }

    // Gathers a deadline without asking about it.
    pub fn schedule(self, deadline: Instant) -> Clock
        ensures { result ≡ gathering self deadline.millis }
    {
        Clock {
            now: self.now,
            next: self.next.min(deadline),
        }
    }

    // Sets a deadline so long from now, and gathers it.
    pub fn after(self, delay: Duration) -> Clocked<Instant>
        ensures { result ≡ timer_after self delay.millis }
    {
        let deadline = self.now.add(delay);
        Clocked {
            value: deadline,
            clock: self.schedule(deadline),
        }
    }
}
