use std::io;
use std::time::Instant;

/// Work that is done many times over.
pub trait Work {
    /// Nanoseconds of so many turns.
    fn batch(&self, rt: &HostRuntime, turns: u64) -> io::Result<u64>;
}

/// The least time of a turn, in thousandths of a nanosecond: batches of about 10 ms, the least of eight.
pub fn least<W: Work>(rt: &HostRuntime, work: &W) -> io::Result<u64> {
    let mut turns = 1u64;
    for _try in 0..40 {
        if work.batch(rt, turns)? > 5_000_000 {
            break;
        }
        turns = turns.saturating_mul(2);
    }
    let mut best = u64::MAX;
    for _try in 0..8 {
        let time = work.batch(rt, turns)?;
        best = best.min(time.saturating_mul(1000) / turns.max(1));
    }
    Ok(best)
}

/// Nanoseconds since then.
pub fn since(rt: &HostRuntime, start: Instant) -> io::Result<u64> {
    Ok(u64::try_from(start.elapsed(rt)?.as_nanos()).unwrap_or(u64::MAX))
}

/// Prints a line with a value.
pub fn report(rt: &HostRuntime, what: &str, value: u64, unit: &str) -> io::Result<()> {
    println!(rt;
        "{{\"what\":\"{what}\",\"peer\":\"project\",\"value\":{value},\"unit\":\"{unit}\"}}"
    )
}

/// Prints a line with a value that is given in thousandths.
pub fn report_thousandths(rt: &HostRuntime, what: &str, value: u64, unit: &str) -> io::Result<()> {
    println!(rt;
        "{{\"what\":\"{what}\",\"peer\":\"project\",\"value\":{}.{:03},\"unit\":\"{unit}\"}}",
        value / 1000,
        value % 1000
    )
}
