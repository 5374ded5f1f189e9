// How fast the work goes, and how long it will take.
ghost use Rattle.std.specs.Prelude.{◌≡◌, ◌-◌, ◌*◌, ◌/◌, ◌<◌, ◌≤◌, ◌^◌, min, IfSome, IsSome, ◌↔◌};

// How long a pace is measured before an older one is given up, in milliseconds.
const SPAN: u64 = 30_000;

const MILLISECONDS: u64 = 1000;

/// How far the work had come at one time.
#[derive(Clone, Copy, Debug, PartialEq, Eq)]
pub(crate) struct Mark {
    /// In milliseconds of the clock.
    pub time: u64,
    /// The bytes that were read.
    pub bytes: u64,
    /// The place in parity, 0 where it was not come to yet.
    pub place: u64,
}

/// The work since some earlier time, of the last half minute or the last whole one.
#[derive(Clone, Copy, Debug, PartialEq, Eq)]
pub(crate) struct Pace {
    since: Mark,
    next: Mark,
}

impl Pace {
    /// The work since this time.
    pub(crate) fn since(mark: Mark) -> Pace {
        Pace {
            since: mark,
            next: mark,
        }
    }

    /// Notes how far the work has come. It is measured anew from where parity is come to first.
    pub(crate) fn note(&mut self, now: Mark) {
        if self.since.place == 0 && now.place > 0 {
            *self = Pace::since(now);
        } else if now.time.saturating_sub(self.next.time) >= SPAN {
            self.since = self.next;
            self.next = now;
        }
    }

    /// How many bytes are read in a second, where any time has gone by.
    pub(crate) fn speed(&self, now: Mark) -> Option<u64>
        ensures variant { IsSome result ↔ (self.now.since.time < now.time) }
        ensures value { IfSome result (λ n.
            n ≡ min ((now.bytes - self.now.since.bytes) * 1000 / (now.time - self.now.since.time)) (2 ^ 64 - 1)) }
    {
        quotient(
            now.bytes.saturating_sub(self.since.bytes),
            MILLISECONDS,
            now.time.saturating_sub(self.since.time),
        )
    }

    /// How many seconds the rest of parity takes at this pace, where any of it was done.
    pub(crate) fn seconds_left(&self, now: Mark, length: u64) -> Option<u64>
        ensures variant { IsSome result ↔ (self.now.since.place < now.place) }
        ensures value { IfSome result (λ n.
            n ≡ min ((now.time - self.now.since.time) * (length - now.place) / (now.place - self.now.since.place)) (2 ^ 64 - 1) / 1000) }
    {
        let left = quotient(
            now.time.saturating_sub(self.since.time),
            length.saturating_sub(now.place),
            now.place.saturating_sub(self.since.place),
        )?;
        Some(left / MILLISECONDS)
    }
}

/// How many hundredths of the length lie before a place, at most 100.
pub(crate) fn percent(place: u64, length: u64) -> Option<u64>
    ensures variant { IsSome result ↔ (0 < length) }
    ensures value { IfSome result (λ n. n ≡ min place length * 100 / length) }
{
    quotient(place.min(length), 100, length)
}

// A product divided, at most the greatest u64. None where the divisor is 0.
fn quotient(a: u64, b: u64, divisor: u64) -> Option<u64>
    ensures variant { IsSome result ↔ (0 < divisor) }
    ensures value { IfSome result (λ n. n ≡ min (a * b / divisor) (2 ^ 64 - 1)) }
{
    if divisor == 0 {
        return None;
    }
    let whole = u128::from(a) * u128::from(b) / u128::from(divisor);
    Some(u64::try_from(whole).unwrap_or(u64::MAX))
}
