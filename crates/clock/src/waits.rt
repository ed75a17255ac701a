// The client's waits and its number of tries, in one record: the Rust's constants of these names.
#![tactic(auto, unfolding(crate::specs::Waits::standard_waits))]

ghost use Rattle.std.specs.Prelude.{◌≡◌};
ghost use Rattle.clock.specs.Waits.{standard_waits};

use crate::duration::Duration;

#[derive(Clone, Copy, Debug, PartialEq, Eq)]
pub struct Waits {
    // From one Discover to the next.
    pub discover_timeout: Duration,
    // After each of the first two Requests of Requesting; twice that after each of the next two, and so on.
    pub initial_request_timeout: Duration,
    // The Requests of Requesting, before the client discovers anew.
    pub request_retries: u16,
    // At least this lies between two Requests of Renewing, unless the rebind moment comes first.
    pub min_renew_timeout: Duration,
}

impl Waits {
    pub fn standard() -> Waits
        ensures { result ≡ standard_waits }
    {
        Waits {
            discover_timeout: Duration { millis: 10000 },
            initial_request_timeout: Duration { millis: 5000 },
            request_retries: 5,
            min_renew_timeout: Duration { millis: 60000 },
        }
    }
}
