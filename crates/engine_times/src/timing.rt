//! What a time comes to.

ghost use Rattle.std.specs.Prelude.{◌≡◌, ◌*◌, ◌/◌, ◌+◌, max};

use std::io;
use std::time::Instant;

/// The nanoseconds since a moment.
pub(crate) fn nanos_since(rt: &HostRuntime, start: Instant) -> io::Result<u64> {
    Ok(u64::try_from(start.elapsed(rt)?.as_nanos()).unwrap_or(u64::MAX))
}

/// The whole rows in a second, where `count` took so many nanoseconds. No time counts as one.
pub(crate) fn rows_a_second(count: u32, nanos: u64) -> u64
    ensures { result ≡ count * 1_000_000_000 / max nanos 1 }
{
    count as u64 * 1_000_000_000 / nanos.max(1)
}

/// How many hundredths of the bare time a time is, to the nearest. No time counts as one.
pub(crate) fn hundredths(nanos: u64, bare: u64) -> u128
    ensures { result ≡ (nanos * 100 + bare / 2) / max bare 1 }
{
    (nanos as u128 * 100 + bare as u128 / 2) / bare.max(1) as u128
}
