// Prints the code of the first and last difference of each row of the table, and reads each code back.
//
// What it prints is compared with the table in the rules, which was written down by hand.
#![tactic(auto)]

use codes::code::Code;
use codes::cursor::{Cursor, Unreadable};
use std::io;

fn text(rt: &impl Print, s: &[u8]) -> io::Result<()> {
    rt.write_all(s)
}

fn print_byte(rt: &impl Print, b: u8) -> io::Result<()> {
    print!(rt; " {b:02x}")
}

// A difference of 32 bits as a number with a sign.
fn print_signed(rt: &impl Print, d: u32) -> io::Result<()> {
    if d < 2147483648 {
        rt.print(d)
    } else {
        text(rt, b"-")?;
        rt.print((4294967295 - d) as u64 + 1)
    }
}

fn print_code(rt: &impl Print, c: Option<Code>) -> io::Result<()> {
    match c {
        Some(Code::One(x)) => print_byte(rt, x),
        Some(Code::Two(x, y)) => {
            print_byte(rt, x)?;
            print_byte(rt, y)
        }
        Some(Code::Three(x, y, z)) => {
            print_byte(rt, x)?;
            print_byte(rt, y)?;
            print_byte(rt, z)
        }
        None => text(rt, b" no code"),
    }
}

// What the cursor makes of three bytes.
fn print_read(rt: &impl Print, bytes: &[u8]) -> io::Result<()> {
    match Cursor::start().delta::<u32>(bytes) {
        Ok((d, _)) => print_signed(rt, d)?,
        Err(Unreadable::Cut) => text(rt, b"refused 4")?,
        Err(Unreadable::UnusedCode) => text(rt, b"refused 7")?,
    }
    text(rt, b"\n")
}

fn show(rt: &impl Print, d: u32) -> io::Result<()> {
    print_signed(rt, d)?;
    text(rt, b" is")?;
    print_code(rt, codes::code::encode(d))?;
    text(rt, b"\n")
}

fn main(rt: HostRuntime) -> io::Result<()> {
    show(&rt, 0)?;
    show(&rt, 127)?;
    show(&rt, 4294967168)?;
    show(&rt, 4294967295)?;
    show(&rt, 128)?;
    show(&rt, 16383)?;
    show(&rt, 4294950912)?;
    show(&rt, 4294967167)?;
    show(&rt, 16384)?;
    show(&rt, 4194303)?;
    show(&rt, 4194304)?;
    text(&rt, b"c0 3f 7f reads as ")?;
    print_read(&rt, b"\xC0\x3F\x7F")?;
    text(&rt, b"c0 3f 80 reads as ")?;
    print_read(&rt, b"\xC0\x3F\x80")?;
    text(&rt, b"c0 3f reads as ")?;
    print_read(&rt, b"\xC0\x3F")
}
