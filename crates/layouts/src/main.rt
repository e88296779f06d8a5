// Prints the bytes of the worked cases of the link layouts, as the functions of `links_write` and `refresh` write them.
//
// What it prints is compared with the rules' cases (11.1), which were written down by hand.
#![tactic(auto)]

ghost use Rattle.std.specs.Prelude.{◌≤◌};
ghost use Rattle.packet.specs.Ranges.{Narrow};

use headers_read::read::header_size;
use links_write::cr::{cr_size, put_cr};
use links_write::cu::{cu_size, put_cu};
use packet::csrc::no_list;
use packet::header::{Flow, Header, Ip, Rtp};
use packet::parts::Parts;
use refresh::cs::{put_count, put_record};
use refresh::fh::put_fh;
use std::io;

fn text(rt: &impl Print, s: &[u8]) -> io::Result<()> {
    rt.write_all(s)
}

fn print_byte(rt: &impl Print, b: u8) -> io::Result<()> {
    print!(rt; " {b:02x}")
}

fn print_bytes(rt: &impl Print, s: &[u8]) -> io::Result<()> {
    for b in s {
        print_byte(rt, *b)?;
    }
    text(rt, b"\n")
}

// The header of a packet of 40 bytes, for the full header's case.
fn header() -> Header
    ensures { Narrow result }
{
    Header {
        flow: Flow {
            source: 0x0A000001,
            destination: 0x0A000002,
            sport: 5000,
            dport: 5002,
            ssrc: 7,
        },
        ip: Ip {
            tos: 0,
            ttl: 64,
            flags: 1,
            id: 0x26C3,
        },
        rtp: Rtp {
            padding: false,
            extension: false,
            payload: 0,
            sequence: 1,
            timestamp: 10,
        },
        csrc: no_list(),
        marker: false,
        checksum: 0,
    }
}

// Parts with nothing but a marker, or with ID 1234 hex and timestamp 40 whole, and 10 for the timestamp's difference.
fn parts(marker: bool, jump: bool) -> Parts
    ensures { result.csrc.count ≤ 15 }
{
    Parts {
        marker: marker,
        checksum: 0,
        id: jump.then_some(0x1234),
        sequence: None,
        timestamp: jump.then_some(40),
        payload: None,
        did: None,
        dsn: None,
        dts: jump.then_some(10),
        listed: jump,
        csrc: no_list(),
    }
}

fn show_fh(rt: &impl Print, out: &mut [u8]) -> io::Result<()> {
    let h = header();
    if out.len() < header_size(h) {
        return Ok(());
    }
    put_fh(out, 0, 3, 5, 9, 40, h);
    text(rt, b"context 3, generation 5, sequence 9, length fields:")?;
    print_bytes(rt, &out[2..4])?;
    text(rt, b"and")?;
    print_bytes(rt, &out[24..26])
}

fn show_cs(rt: &impl Print, out: &mut [u8]) -> io::Result<()> {
    if out.len() < 5 {
        return Ok(());
    }
    let at = put_count(out, 0, 1);
    put_record(out, at, 3, 4, 5);
    text(rt, b"report of that context, last sequence 4:")?;
    print_bytes(rt, &out[0..5])
}

fn show_cr(rt: &impl Print, out: &mut [u8]) -> io::Result<()> {
    let h = parts(true, false);
    let size = cr_size(false, h);
    if out.len() < size {
        return Ok(());
    }
    put_cr(out, 0, 0, 6, false, h);
    text(rt, b"context 0, sequence 6, marker, nothing due:")?;
    print_bytes(rt, &out[0..size])
}

fn show_cu(rt: &impl Print, out: &mut [u8]) -> io::Result<()> {
    let h = parts(false, true);
    let size = cu_size(false, h);
    if out.len() < size {
        return Ok(());
    }
    put_cu(out, 0, 0, 3, false, h);
    text(rt, b"context 0, sequence 3, timestamp 40, ID 1234:")?;
    print_bytes(rt, &out[0..size])
}

fn main(rt: HostRuntime) -> io::Result<()> {
    let mut out = [0u8; 64];
    show_fh(&rt, &mut out)?;
    show_cs(&rt, &mut out)?;
    show_cr(&rt, &mut out)?;
    show_cu(&rt, &mut out)
}
