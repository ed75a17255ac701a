// Moments: the lowest 32 bits of a count of milliseconds since some start, so that they begin anew after seven weeks. Which
// of two is before the other goes by the sign of their wrapped difference. That is the true order while they lie less than
// 2^31 ms apart.
#![tactic(auto, using(choice::proofs::Choices::if_true, choice::proofs::Choices::if_false, crate::proofs::MomentLaws::due_by_gap), unfolding(crate::specs::Durations::none_if, crate::specs::Moments::before, crate::specs::Moments::rest, crate::specs::Moments::earlier, crate::specs::Moments::later))]

ghost use Rattle.std.specs.Prelude.{◌≡◌, ◌*◌, ◌/◌, ◌%◌};
ghost use Rattle.clock.specs.Durations.{clamp, duration, none_if};
ghost use Rattle.clock.specs.Moments.{wrap, plus, gap, before, due, rest, earlier, later, moment};

use crate::duration::Duration;

// No PartialOrd: `is_before` is no order, since of three moments that lie all round the clock each is before the next.
#[derive(Clone, Copy, Debug, PartialEq, Eq)]
pub struct Instant {
    pub millis: u32,
}

// Half of what a moment counts: a wrapped difference from here on is a negative number.
const HALF: u32 = 1 << 31;

// as_millis, as_secs and subsec_millis are Duration's too, by the Rust's names: a trait of one-line bodies would be longer.
impl Instant {
    // The start.
    pub const ZERO: Instant = Instant { millis: 0 };

    pub fn from_millis(millis: u32) -> Instant
        ensures { result ≡ moment millis }
    {
        Instant { millis }
    }

    // So many seconds after the start.
    pub fn from_secs(secs: u32) -> Instant
        ensures { result ≡ moment (wrap (1000 * secs)) }
    {
        Instant {
            millis: secs.wrapping_mul(1000),
        }
    }

    pub fn as_millis(self) -> u32
        ensures { result ≡ self.millis }
    {
        self.millis
    }

    // The whole seconds.
    pub fn as_secs(self) -> u32
        ensures { result ≡ self.millis / 1000 }
    {
        self.millis / 1000
    }

    // The milliseconds past the whole seconds.
    pub fn subsec_millis(self) -> u32
        ensures { result ≡ self.millis % 1000 }
    {
        self.millis % 1000
    }

    // The moment a wait later: the Rust's `self + wait`.
    pub fn add(self, wait: Duration) -> Instant
        ensures { result ≡ moment (plus self.millis wait.millis) }
    {
        Instant {
            millis: self.millis.wrapping_add(wait.millis),
        }
    }

    // The moment a wait earlier: the Rust's `self - wait`.
    pub fn sub(self, wait: Duration) -> Instant
        ensures { result ≡ moment (gap self.millis wait.millis) }
    {
        Instant {
            millis: wrapped_gap(self.millis, wait.millis),
        }
    }

    // The Rust's `self < other`. At a distance of exactly 2^31 each is before the other.
    pub fn is_before(self, other: Instant) -> bool
        ensures { result ≡ before self.millis other.millis }
    {
        let a = self.millis;
        let b = other.millis;
        let gap = wrapped_gap(a, b);
        HALF <= gap
    }

    // The Rust's `self <= other`: a timer set for self is due at other.
    pub fn is_at_or_before(self, other: Instant) -> bool
        ensures { result ≡ due self.millis other.millis }
    {
        let a = self.millis;
        let b = other.millis;
        let gap = wrapped_gap(b, a);
        gap <= HALF
    }

    // The time from an earlier moment to this one, or none where that moment is the later one.
    pub fn checked_duration_since(self, earlier: Instant) -> Option<Duration>
        ensures { result ≡ none_if (before self.millis earlier.millis) (clamp (gap self.millis earlier.millis)) }
    {
        if self.is_before(earlier) {
            return None;
        }
        Some(Duration::from_millis(wrapped_gap(self.millis, earlier.millis)))
    }

    // The time from an earlier moment to this one, zero where that moment is the later one.
    pub fn saturating_duration_since(self, earlier: Instant) -> Duration
        ensures { result ≡ duration (rest self.millis earlier.millis) }
    {
        self.checked_duration_since(earlier)
            .unwrap_or(Duration::ZERO)
    }

    // The same under the name by which the Rust's `self - earlier` calls it: both names are ported.
    pub fn duration_since(self, earlier: Instant) -> Duration
        ensures { result ≡ duration (rest self.millis earlier.millis) }
    {
        self.saturating_duration_since(earlier)
    }

    // The earlier of two.
    pub fn min(self, other: Instant) -> Instant
        ensures { result ≡ moment (earlier self.millis other.millis) }
    {
        if other.is_before(self) { other } else { self }
    }

    // The later of two.
    pub fn max(self, other: Instant) -> Instant
        ensures { result ≡ moment (later self.millis other.millis) }
    {
        if other.is_at_or_before(self) {
            self
        } else {
            other
        }
    }
}

// The wrapped difference of two counts.
fn wrapped_gap(a: u32, b: u32) -> u32
    ensures { result ≡ gap a b }
{
    a.wrapping_sub(b)
}
