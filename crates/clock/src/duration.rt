// Lengths of time in milliseconds. What is made or added up here stops at Duration::MAX, so that no deadline lies too far
// off to be compared with the present.
#![tactic(auto, using(choice::proofs::Choices::if_true, choice::proofs::Choices::if_false), unfolding(crate::specs::Durations::none_if))]

ghost use Rattle.std.specs.Prelude.{◌≡◌, ◌+◌, ◌-◌, ◌*◌, ◌/◌, ◌%◌, min, max, ◌==◌, nat_lt};
ghost use Rattle.clock.specs.Durations.{longest, clamp, seconds, duration, none_if};

// By its milliseconds: min and max, the shorter one and the longer one, are Ord's.
#[derive(Clone, Copy, Debug, PartialEq, Eq, PartialOrd, Ord)]
pub struct Duration {
    // At most 2^30 in what the constructors give. The operations take any value, and read it as it is.
    pub millis: u32,
}

impl Duration {
    pub const ZERO: Duration = Duration { millis: 0 };

    // 2^30 ms: some twelve days.
    pub const MAX: Duration = Duration { millis: 1 << 30 };

    // So many milliseconds, at most MAX.
    pub fn from_millis(millis: u32) -> Duration
        ensures { result ≡ duration (clamp millis) }
    {
        clamped(u64::from(millis))
    }

    // So many seconds, at most MAX.
    pub fn from_secs(secs: u32) -> Duration
        ensures { result ≡ duration (seconds secs) }
    {
        clamped(1000 * u64::from(secs))
    }

    pub fn is_zero(self) -> bool
        ensures { result ≡ (self.millis == 0) }
    {
        self.millis == 0
    }

    // The whole seconds.
    pub fn as_secs(self) -> u32
        ensures { result ≡ self.millis / 1000 }
    {
        self.millis / 1000
    }

    pub fn as_millis(self) -> u32
        ensures { result ≡ self.millis }
    {
        self.millis
    }

    // The milliseconds past the whole seconds.
    pub fn subsec_millis(self) -> u32
        ensures { result ≡ self.millis % 1000 }
    {
        self.millis % 1000
    }

    // The sum, or none where it is longer than MAX.
    pub fn checked_add(self, rhs: Duration) -> Option<Duration>
        ensures { result ≡ none_if (nat_lt longest (self.millis + rhs.millis)) (self.millis + rhs.millis) }
    {
        within_max(u64::from(self.millis) + u64::from(rhs.millis))
    }

    // The difference, or none where rhs is the longer one.
    pub fn checked_sub(self, rhs: Duration) -> Option<Duration>
        ensures { result ≡ none_if (nat_lt self.millis rhs.millis) (self.millis - rhs.millis) }
    {
        Some(Duration {
            millis: self.millis.checked_sub(rhs.millis)?,
        })
    }

    // The product, or none where it is longer than MAX.
    pub fn checked_mul(self, rhs: u32) -> Option<Duration>
        ensures { result ≡ none_if (nat_lt longest (self.millis * rhs)) (self.millis * rhs) }
    {
        within_max(u64::from(self.millis) * u64::from(rhs))
    }

    // The quotient, cut down, or none where rhs is zero.
    pub fn checked_div(self, rhs: u32) -> Option<Duration>
        ensures { result ≡ none_if (rhs == 0) (self.millis / rhs) }
    {
        Some(Duration {
            millis: self.millis.checked_div(rhs)?,
        })
    }

    // The sum, at most MAX.
    pub fn saturating_add(self, rhs: Duration) -> Duration
        ensures { result ≡ duration (clamp (self.millis + rhs.millis)) }
    {
        clamped(u64::from(self.millis) + u64::from(rhs.millis))
    }

    // The difference, at least ZERO.
    pub fn saturating_sub(self, rhs: Duration) -> Duration
        ensures { result ≡ duration (self.millis - rhs.millis) }
    {
        Duration {
            millis: self.millis.saturating_sub(rhs.millis),
        }
    }

    // The product, at most MAX.
    pub fn saturating_mul(self, rhs: u32) -> Duration
        ensures { result ≡ duration (clamp (self.millis * rhs)) }
    {
        clamped(u64::from(self.millis) * u64::from(rhs))
    }

    // The longer one less the shorter one.
    pub fn abs_diff(self, other: Duration) -> Duration
        ensures { result ≡ duration (max self.millis other.millis - min self.millis other.millis) }
    {
        Duration {
            millis: self.millis.abs_diff(other.millis),
        }
    }
}

// A duration of so many milliseconds, at most MAX.
fn clamped(millis: u64) -> Duration
    ensures { result ≡ duration (clamp millis) }
{
    Duration {
        millis: millis.min(u64::from(Duration::MAX.millis)) as u32,
    }
}

// A duration of so many milliseconds, or none where that is longer than MAX.
fn within_max(millis: u64) -> Option<Duration>
    ensures { result ≡ none_if (nat_lt longest millis) millis }
{
    (millis <= u64::from(Duration::MAX.millis)).then_some(clamped(millis))
}
