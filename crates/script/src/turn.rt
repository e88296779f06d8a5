ghost use Rattle.std.specs.Prelude.{◌≤◌, ◌<◌, IfOk, length};

use crate::line::{State, run_compressor, run_decompressor, run_endpoint, uncut};
use crtp::{CompressorLayout, DecompressorLayout};
use endpoint::Totals;
use script_text::room::front;
use script_text::word::Word;
use std::io;
use std::io::{Read, Write};

// The next line end from a place on, or the end of what the buffer is filled with.
fn line_end(buf: &[u8], at: usize, filled: usize) -> usize
    requires { (at ≤ filled) × (filled ≤ length buf.now) }
    ensures { (at ≤ result) × (result ≤ filled) }
{
    let line = &buf[at..filled];
    at + line.iter().position(|b| *b == b'\n').unwrap_or(line.len())
}

// Moves what begins at start to the front. A line longer than any call keeps its first bytes only, so that there is always
// room to read on.
fn keep(buf: &mut [u8], start: usize, end: usize) -> usize
    requires { (start ≤ end) × (end ≤ length buf.old) }
    ensures { result ≤ length buf.new }
{
    let n = (end - start).min(40000);
    if 0 < start {
        buf.copy_within(start..start + n, 0);
    }
    n
}

// The last line may have no line end: it gets one.
fn end_last(buf: &mut [u8], kept: usize) -> usize
    requires { kept ≤ length buf.old }
    ensures { result ≤ length buf.new }
{
    if kept == 0 {
        return 0;
    }
    if kept < buf.len() {
        buf[kept] = b'\n';
        return kept + 1;
    }
    0
}

// One read after what is kept; answers how far the buffer is filled then, 0 where the input has ended.
fn read_more(rt: &HostRuntime, buf: &mut [u8], kept: usize) -> io::Result<usize>
    requires { kept ≤ length buf.old }
    ensures { IfOk result (λ r. r ≤ length buf.new) }
{
    let n = rt.stdin().read(&mut buf[kept..])?;
    if n == 0 {
        return Ok(end_last(buf, kept));
    }
    Ok(kept + n)
}

// The answers so far go out, and the input is read on after what begins at the start.
fn read_on(rt: &HostRuntime, s: State, buf: &mut [u8], text: &[u8]) -> io::Result<State>
    requires { (s.start ≤ s.filled) × (s.filled ≤ length buf.old) }
    ensures { IfOk result (λ r. (r.start ≤ r.filled) × (r.filled ≤ length buf.new)) }
{
    rt.stdout().write_all(front(text, s.at))?;
    let kept = keep(buf, s.start, s.filled);
    Ok(uncut(read_more(rt, buf, kept)?))
}

// Cuts the next line; where none is whole, the input is read on. Nothing is filled where it has ended.
fn next_line(rt: &HostRuntime, s: State, buf: &mut [u8], text: &[u8]) -> io::Result<State>
    requires { (s.start ≤ s.filled) × (s.filled ≤ length buf.old) }
    ensures { IfOk result (λ r. (r.start ≤ r.filled) × (r.filled ≤ length buf.new)) }
{
    let end = line_end(buf, s.start, s.filled);
    if end < s.filled {
        return Ok(State {
            at: s.at,
            line: Word {
                at: s.start,
                end: end,
            },
            waits: true,
            start: end + 1,
            filled: s.filled,
        });
    }
    read_on(rt, s, buf, text)
}

// Every table is one of zeros at first, which is not open: calls on it are refused 1.
//
// Nothing says that an input ends, and a proved loop has to: its turns have a bound that no run reaches.
pub fn run(rt: &HostRuntime) -> io::Result<()> {
    let mut buf = [0u8; 65536];
    let mut text = [0u8; 65536];
    let mut cw = [0u32; CompressorLayout::WORDS];
    let mut ch = [0u16; CompressorLayout::SHORTS];
    let mut cb = [0u8; CompressorLayout::BYTES];
    let mut dw = [0u32; DecompressorLayout::WORDS];
    let mut dh = [0u16; DecompressorLayout::SHORTS];
    let mut db = [0u8; DecompressorLayout::BYTES];
    let mut ecw = [0u32; CompressorLayout::WORDS];
    let mut ech = [0u16; CompressorLayout::SHORTS];
    let mut ecb = [0u8; CompressorLayout::BYTES];
    let mut edw = [0u32; DecompressorLayout::WORDS];
    let mut edh = [0u16; DecompressorLayout::SHORTS];
    let mut edb = [0u8; DecompressorLayout::BYTES];
    let mut totals = [0u32; Totals::COUNT];
    let mut s = uncut(0);
    for _ in 0..u64::MAX {
        s = next_line(rt, s, &mut buf, &text)?;
        if s.filled == 0 {
            return Ok(());
        }
        s = run_compressor(rt, &mut cw, &mut ch, &mut cb, &buf, s, &mut text)?;
        s = run_endpoint(
            rt,
            &mut ecw,
            &mut ech,
            &mut ecb,
            &mut edw,
            &mut edh,
            &mut edb,
            &mut totals,
            &buf,
            s,
            &mut text,
        )?;
        s = run_decompressor(rt, &mut dw, &mut dh, &mut db, &buf, s, &mut text)?;
    }
    Ok(())
}
