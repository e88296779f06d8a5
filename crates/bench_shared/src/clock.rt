use std::io;
use std::time::{CpuClock, Duration};

// A reading that the clock refused, or that is too long for the answer, counts as 0.
fn natural(reading: io::Result<Duration>) -> u64 {
    match reading {
        Ok(time) => u64::try_from(time.as_micros()).unwrap_or(0),
        Err(_) => 0,
    }
}

// Processor time of the process in microseconds.
pub fn now(rt: &impl CpuClock) -> u64 {
    natural(rt.process_cpu_time())
}

// Microseconds from one reading to a later one.
pub fn passed(from: u64, to: u64) -> u64 {
    to.wrapping_sub(from)
}
