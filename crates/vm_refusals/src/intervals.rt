// Intervals that grow, or shrink, by a factor. All are in nanoseconds.
ghost use Rattle.std.specs.Prelude.{◌≡◌, ◌≤◌, ◌*◌, ◌/◌, ◌&&◌, nat_le};
ghost use Rattle.std.specs.Duration.{max_nanos};
ghost use Rattle.vm_refusals.specs.RetryDecisions.{at_most, interval_after};

use crate::Factor;

// An interval, one retry later.
fn longer(interval: u128, factor: Factor) -> u128
    requires { interval ≤ max_nanos }
    ensures { result ≡ interval * factor.numerator / factor.denominator }
{
    interval * factor.numerator as u128 / factor.denominator as u128
}

// Whether this interval, and all that come after it, are at least the most.
fn is_past(most: u128, interval: u128, factor: Factor) -> bool
    ensures { result ≡ (nat_le most interval && nat_le factor.denominator factor.numerator) }
{
    interval >= most && factor.numerator >= factor.denominator
}

/// The interval so many retries after the first, or the most where it is longer.
///
/// It is reckoned retry by retry, and no further than where all intervals that come are the same.
pub fn interval_after(first: u128, factor: Factor, most: u128, retries: u32) -> u128
    requires first { first ≤ max_nanos }
    requires most { most ≤ max_nanos }
    ensures { result ≡ at_most most (interval_after first factor.numerator factor.denominator retries) }
{
    let mut interval = first;
    for _retry in 0..retries {
        let next = longer(interval, factor);
        if next == interval {
            return interval.min(most);
        }
        if is_past(most, next, factor) {
            return most;
        }
        interval = next;
    }
    interval.min(most)
}
