ghost use Rattle.std.specs.Prelude.{◌≡◌, ◌≤◌, length};

use crate::frames::{head_size, put_compressed, put_full};
use bench_shared::clock::{now, passed};
use crtp::{DecompressorLayout, DecompressorOutcome};
use std::time::CpuClock;

// A decompressor's table.
type Words = [u32; DecompressorLayout::WORDS];

type Shorts = [u16; DecompressorLayout::SHORTS];

type Bytes = [u8; DecompressorLayout::BYTES];

// Opens the decompressor whose table is w, h and b, and hands it the full header of a packet of so many bytes.
fn make_ready(w: &mut [u32], h: &mut [u16], b: &mut [u8], size: u16, carried: bool)
    requires { size ≤ 1500 }
{
    let mut link = [0u8; 1500];
    let mut out = [0u8; 1500];
    put_full(&mut link, size, carried);
    let _ = crtp::open_decompressor(w, h, b, 2, 64);
    let end = size as usize;
    let _ = crtp::receive(w, h, b, 1, &link[0..end], &mut out);
}

fn is_whole(outcome: DecompressorOutcome, size: usize) -> bool {
    outcome.is_ok_and(|length| length == size)
}

// An arrival at a copy of a table: whether it was accepted whole.
fn receive_once(mut w: Words, mut h: Shorts, mut b: Bytes, link: &[u8], out: &mut [u8]) -> bool {
    let size = out.len();
    let outcome = crtp::receive(&mut w, &mut h, &mut b, 3, link, out);
    is_whole(outcome, size)
}

// The same arrival, so many times at the same table: how often it was accepted whole.
fn receive_again(w: Words, h: Shorts, b: Bytes, link: &[u8], out: &mut [u8], count: u32) -> u32 {
    let mut whole = 0u32;
    for _ in 0..count {
        let accepted = receive_once(w, h, b, link, out);
        whole = whole.wrapping_add(accepted as u32);
    }
    whole
}

// Calls that were accepted, the sum of what the last one gave out, and the microseconds that all took.
#[derive(Clone, Copy)]
pub struct Round {
    pub accepted: u32,
    pub last: u16,
    pub time: u64,
}

fn receive_timed(
    rt: &impl CpuClock,
    w: Words,
    h: Shorts,
    b: Bytes,
    link: &[u8],
    out: &mut [u8],
    count: u32,
) -> Round {
    let from = now(rt);
    let accepted = receive_again(w, h, b, link, out, count);
    let to = now(rt);
    let size = out.len();
    Round {
        accepted: accepted,
        last: octets::sum::sum(0, &out[0..size]),
        time: passed(from, to),
    }
}

// The arrivals at a table that is ready.
fn arrive(
    rt: &impl CpuClock,
    w: Words,
    h: Shorts,
    b: Bytes,
    size: u16,
    carried: bool,
    count: u32,
) -> Round
    requires { (40 ≤ size) × (size ≤ 1500) }
{
    let mut link = [0u8; 1500];
    let mut out = [0u8; 1500];
    put_compressed(&mut link, size, carried);
    let whole = size as usize;
    let end = head_size(carried) + (whole - 40);
    receive_timed(rt, w, h, b, &link[0..end], &mut out[0..whole], count)
}

pub fn run_round(rt: &impl CpuClock, size: u16, carried: bool, count: u32) -> Round
    requires { (40 ≤ size) × (size ≤ 1500) }
{
    let mut w = [0u32; DecompressorLayout::WORDS];
    let mut h = [0u16; DecompressorLayout::SHORTS];
    let mut b = [0u8; DecompressorLayout::BYTES];
    make_ready(&mut w, &mut h, &mut b, size, carried);
    arrive(rt, w, h, b, size, carried, count)
}
