// What a poll does, as far as the state, the waits and the moment decide it.
#![tactic(auto, using(choice::proofs::Choices::if_true, choice::proofs::Choices::if_false, crate::proofs::Doublings::most_doublings), unfolding(clock::specs::Clocks::clock_at, clock::specs::Clocks::gathering, clock::specs::Clocks::expired_at, clock::specs::Clocks::timer_after, crate::specs::Decisions::decided_discovering, crate::specs::Decisions::decided_requesting, crate::specs::Decisions::next_retry, crate::specs::Decisions::rebinds, crate::specs::Decisions::decided_renewing, crate::specs::Decisions::decided))]

ghost use Rattle.std.specs.Prelude.{◌≡◌, false, [], ◌∷◌, ◌/◌, ◌<◌, max, None, Some};
ghost use Rattle.clock.specs.Durations.{duration};
ghost use Rattle.clock.specs.Moments.{due, moment};
ghost use Rattle.machine.specs.Decisions.{waking, sends, discovers, decided_discovering, request_wait, requested, decided_requesting, next_retry, rebinds, renew_wait, rebind_wait, decided_renewing, decided, following};

use crate::state::{ClientState, DiscoverState, RenewState, RequestState, Tries};
use crate::times::half;
use clock::{Clock, Duration, Instant, Waits};

// A message that a poll sends, with the state that follows it.
#[derive(Clone, Copy, Debug, PartialEq, Eq)]
pub enum Sending {
    // A Discover: a lease that is held is dropped first.
    Discover(DiscoverState),
    // A Request of Requesting.
    Request(RequestState),
    // A Request of Renewing: to the server that leased the address or, once rebinding, to any.
    Renew(RenewState),
}

// The message that is due at a moment, if one is, and when the next poll is wanted.
#[derive(Clone, Copy, Debug, PartialEq, Eq)]
pub struct Decision {
    pub due: Option<Sending>,
    pub wake: Instant,
}

// Doubled so often, every wait but zero is Duration::MAX or longer.
const MOST_DOUBLINGS: u16 = 30;

// The waits and the moment stay two parameters: each is used alone, and a struct of both would be taken apart at each use.
impl ClientState {
    // What a poll at now does.
    pub fn decide(self, waits: Waits, now: Instant) -> Decision
        ensures { result ≡ decided waits self now.millis }
    {
        match self {
            ClientState::Init => discover(waits, now),
            ClientState::Discovering(s) => s.decide(waits, now),
            ClientState::Requesting(s) => s.decide(waits, now),
            ClientState::Renewing(s) => s.decide(waits, now),
        }
    }
}

impl Sending {
    // The state that follows a message. A step, and no From: a ClientState made from a Sending would not say which comes first.
    pub fn following(self) -> ClientState
        ensures { result ≡ following self }
    {
        match self {
            Sending::Discover(s) => ClientState::Discovering(s),
            Sending::Request(s) => ClientState::Requesting(s),
            Sending::Renew(s) => ClientState::Renewing(s),
        }
    }
}

// What a poll does that sends a message, by a clock that has gathered the deadlines after it.
fn sent(sending: Sending, clock: Clock) -> Decision
    ensures { result ≡ record { due = Some sending; wake = clock.next } }
{
    Decision {
        due: Some(sending),
        wake: clock.next,
    }
}

// What a poll does that sends none, by a clock that has gathered the open deadlines.
fn waiting(clock: Clock) -> Decision
    ensures { result ≡ record { due = None; wake = clock.next } }
{
    Decision {
        due: None,
        wake: clock.next,
    }
}

// Giving up on a server and losing a lease start over, and the first Discover is due at once: in the same poll.
fn discover(waits: Waits, now: Instant) -> Decision
    ensures { result ≡ discovers waits now.millis }
{
    let timer = Clock::new(now).after(waits.discover_timeout);
    let next = DiscoverState {
        retry_at: timer.value,
    };
    sent(Sending::Discover(next), timer.clock)
}

impl DiscoverState {
    fn decide(self, waits: Waits, now: Instant) -> Decision
        ensures { result ≡ decided_discovering waits self now.millis }
    {
        let retry = Clock::new(now).expired(self.retry_at);
        if retry.value {
            discover(waits, now)
        } else {
            waiting(retry.clock)
        }
    }
}

impl RequestState {
    fn decide(self, waits: Waits, now: Instant) -> Decision
        ensures { result ≡ decided_requesting waits self now.millis }
    {
        let retry = Clock::new(now).expired(self.tries.retry_at);
        if !retry.value {
            waiting(retry.clock)
        } else if waits.request_retries <= self.tries.retry {
            discover(waits, now)
        } else {
            self.request(waits, now)
        }
    }

    // The Request, sent once more while there are tries left.
    fn request(self, waits: Waits, now: Instant) -> Decision
        requires { self.tries.retry < waits.request_retries }
        ensures { result ≡ sends now.millis (Sending.Request (requested waits self now.millis)) ((requested waits self now.millis).tries.retry_at.millis ∷ []) }
    {
        let timer = Clock::new(now).after(request_wait(waits, self.tries.retry));
        let tries = Tries {
            retry_at: timer.value,
            retry: self.tries.retry + 1,
        };
        sent(
            Sending::Request(RequestState { tries, ..self }),
            timer.clock,
        )
    }
}

// Exponential backoff: the wait doubles at every second try.
fn request_wait(waits: Waits, tried: u16) -> Duration
    ensures { result ≡ duration (request_wait waits tried) }
{
    let doublings = tried / 2;
    waits
        .initial_request_timeout
        .saturating_mul(1 << doublings.min(MOST_DOUBLINGS))
}

impl RenewState {
    fn decide(self, waits: Waits, now: Instant) -> Decision
        ensures { result ≡ decided_renewing waits self now.millis }
    {
        let expiry = Clock::new(now).expired(self.expires_at);
        if expiry.value {
            discover(waits, now)
        } else {
            self.decide_unexpired(waits, expiry.clock)
        }
    }

    // The same while the lease lasts, by a clock that has gathered its end.
    fn decide_unexpired(self, waits: Waits, clock: Clock) -> Decision
        requires lasts { due self.expires_at.millis clock.now.millis ≡ false }
        requires end_gathered { clock.next ≡ moment (waking clock.now.millis (self.expires_at.millis ∷ [])) }
        ensures { result ≡ decided_renewing waits self clock.now.millis }
    {
        let retry = clock.expired(self.retry_at());
        if !retry.value {
            waiting(retry.clock)
        } else if self.rebinds(clock.now) {
            let timer = clock.after(self.rebind_wait(waits, clock.now));
            let next = RenewState {
                rebind_at: timer.value,
                rebinding: true,
                ..self
            };
            sent(Sending::Renew(next), timer.clock)
        } else {
            let timer = clock.after(self.renew_wait(waits, clock.now));
            let next = RenewState {
                renew_at: timer.value,
                rebinding: false,
                ..self
            };
            sent(Sending::Renew(next), timer.clock)
        }
    }

    // When the next Request is due.
    fn retry_at(self) -> Instant
        ensures { result ≡ moment (next_retry self) }
    {
        if self.rebinding {
            self.rebind_at
        } else {
            self.renew_at.min(self.rebind_at)
        }
    }

    // Whether a Request goes to any server: once one did, the rest do.
    fn rebinds(self, now: Instant) -> bool
        ensures { result ≡ rebinds self now.millis }
    {
        self.rebinding || !now.is_before(self.rebind_at)
    }

    // No longer than until any server is asked.
    fn renew_wait(self, waits: Waits, now: Instant) -> Duration
        ensures { result ≡ duration (renew_wait waits self now.millis) }
    {
        let rest = self.rebind_at.duration_since(now);
        half_or_least(rest, waits).min(rest)
    }

    // It may pass the end of the lease, which is a deadline of its own.
    fn rebind_wait(self, waits: Waits, now: Instant) -> Duration
        ensures { result ≡ duration (rebind_wait waits self now.millis) }
    {
        half_or_least(self.expires_at.duration_since(now), waits)
    }
}

// RFC 2131, section 4.4.5: a Request is sent again after half of the time that is left, but not too soon.
fn half_or_least(rest: Duration, waits: Waits) -> Duration
    ensures { result ≡ duration (max waits.min_renew_timeout.millis (rest.millis / 2)) }
{
    waits.min_renew_timeout.max(half(rest))
}
