ghost use Rattle.std.specs.Prelude.{◌≤◌, ◌≡◌, length};

use crate::former;
use bench_shared::clock::{now, passed};
use std::time::CpuClock;

// The bytes that are summed.
fn fill() -> [u8; 1564] {
    let mut bytes = [0u8; 1564];
    for i in 0..1564u32 {
        bytes[i as usize] = ((167 * i + 13) % 256) as u8;
    }
    bytes
}

// So many sums, each from one place further on, with the sum before it as its start value.
fn at_end(bytes: &[u8], size: usize, count: u32) -> u16
    requires { (length bytes.now ≡ 1564) × (size ≤ 1500) }
{
    let mut sum = 0u16;
    for i in 0..count {
        let at = (i % 64) as usize;
        sum = octets::sum::sum(sum, &bytes[at..at + size]);
    }
    sum
}

// The same with carries put back after every addition.
fn after_each(bytes: &[u8], size: usize, count: u32) -> u16
    requires { (length bytes.now ≡ 1564) × (size ≤ 1500) }
{
    let mut sum = 0u16;
    for i in 0..count {
        let at = (i % 64) as usize;
        sum = former::sum(sum, &bytes[at..at + size]);
    }
    sum
}

// The last sum both ways, and the microseconds that each took.
#[derive(Clone, Copy)]
pub struct Round {
    pub at_end: u16,
    pub after_each: u16,
    pub at_end_time: u64,
    pub after_each_time: u64,
}

pub fn run_round(rt: &impl CpuClock, size: usize, count: u32) -> Round
    requires { size ≤ 1500 }
{
    let bytes = fill();
    let first = now(rt);
    let a = at_end(&bytes, size, count);
    let second = now(rt);
    let b = after_each(&bytes, size, count);
    let third = now(rt);
    Round {
        at_end: a,
        after_each: b,
        at_end_time: passed(first, second),
        after_each_time: passed(second, third),
    }
}
