// How long a lease is, and when it is renewed and rebound.
#![tactic(auto, using(choice::proofs::Choices::if_true, choice::proofs::Choices::if_false), unfolding(crate::specs::Times::lease_time, crate::specs::Times::both_row, crate::specs::Times::times_of))]

ghost use Rattle.std.specs.Prelude.{◌≡◌, ◌+◌, ◌*◌, ◌-◌, ◌/◌};
ghost use Rattle.clock.specs.Durations.{duration};
ghost use Rattle.machine.specs.Times.{given, lease_time, row_of, times_of};

use clock::Duration;

// Of a lease for which the server names no time.
const DEFAULT_LEASE_DURATION: Duration = Duration { millis: 120000 };

// The row of document 01's table that a lease falls under, with the times that it is given there.
#[derive(Clone, Copy, Debug, PartialEq, Eq)]
pub enum Row {
    // T1 < T2 < L
    Both { renew: Duration, rebind: Duration },
    // only T1, T1 < L
    OnlyRenew(Duration),
    // only T2, T2 < L
    OnlyRebind(Duration),
    // else
    Neither,
}

// How long after the ACK a lease is renewed and rebound.
#[derive(Clone, Copy, Debug, PartialEq, Eq)]
pub struct Times {
    pub renew: Duration,
    pub rebind: Duration,
}

// The time that an option gives in seconds.
pub fn timer(seconds: Option<u32>) -> Option<Duration>
    ensures { result ≡ given seconds }
{
    seconds.map(Duration::from_secs)
}

// L: as the server says, or 120 s, and at most the maximum.
pub fn lease_duration(seconds: Option<u32>, maximum: Option<Duration>) -> Duration
    ensures { result ≡ duration (lease_time seconds maximum) }
{
    let said = timer(seconds).unwrap_or(DEFAULT_LEASE_DURATION);
    maximum.map_or(said, |limit| said.min(limit))
}

impl Row {
    // The row of a lease with these options 58 and 59.
    pub fn of(renew: Option<Duration>, rebind: Option<Duration>, lease: Duration) -> Row
        ensures { result ≡ row_of renew rebind lease.millis }
    {
        match (renew, rebind) {
            (Some(t1), Some(t2)) if t1 < t2 && t2 < lease => {
                Row::Both {
                    renew: t1,
                    rebind: t2,
                }
            }
            (Some(t1), None) if t1 < lease => Row::OnlyRenew(t1),
            (None, Some(t2)) if t2 < lease => Row::OnlyRebind(t2),
            _ => Row::Neither,
        }
    }

    // The times of a row, for a lease of that length.
    pub fn times(self, lease: Duration) -> Times
        ensures { result ≡ times_of self lease.millis }
    {
        match self {
            Row::Both { renew, rebind } => Times { renew, rebind },
            Row::OnlyRenew(renew) => Times {
                renew,
                rebind: late(renew, lease),
            },
            Row::OnlyRebind(rebind) => Times {
                renew: half(lease).min(rebind),
                rebind,
            },
            Row::Neither => Times {
                renew: half(lease),
                rebind: Duration {
                    millis: lease.millis / 8 * 7,
                },
            },
        }
    }
}

pub(crate) fn half(time: Duration) -> Duration
    ensures { result ≡ duration (time.millis / 2) }
{
    Duration {
        millis: time.millis / 2,
    }
}

// Three quarters of the way from T1 to the end of the lease, where T1 comes before that.
fn late(renew: Duration, lease: Duration) -> Duration
    ensures { result ≡ duration (renew.millis + (lease.millis - renew.millis) / 4 * 3) }
{
    Duration {
        millis: renew.millis + lease.millis.saturating_sub(renew.millis) / 4 * 3,
    }
}
