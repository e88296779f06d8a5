use crate::stream::voice_at;
use endpoint::{Refusal, Totals};
use std::io;

// What became of a packet on its way; a rebuilt one is exactly the packet that went in, or it is not.
#[derive(Clone, Copy)]
pub enum Fate {
    Lost,
    Rebuilt(bool),
    Refused(Refusal),
}

// A packet's way over the radio: its turn and direction, its link type, the bytes of its header before and on the link.
#[derive(Clone, Copy)]
pub struct Crossing {
    pub turn: u8,
    pub from_arm: bool,
    pub kind: u8,
    pub before: u32,
    pub after: u32,
    pub fate: Fate,
}

// What was counted of one direction: packets sent, lost and rebuilt exactly, and the bytes of all headers before and on the link.
#[derive(Clone, Copy)]
pub struct Count {
    pub sent: u32,
    pub lost: u32,
    pub exact: u32,
    pub before: u32,
    pub after: u32,
}

pub fn text(rt: &impl Print, s: &[u8]) -> io::Result<()> {
    rt.write_all(s)
}

// A number with a space before it where it has one digit.
fn column(rt: &impl Print, n: u32) -> io::Result<()> {
    if n < 10 {
        text(rt, b" ")?;
    }
    rt.print(n)
}

fn print_direction(rt: &impl Print, from_arm: bool) -> io::Result<()> {
    if from_arm {
        text(rt, b"arm to desk")
    } else {
        text(rt, b"desk to arm")
    }
}

fn print_fate(rt: &impl Print, f: Fate) -> io::Result<()> {
    match f {
        Fate::Lost => text(rt, b"lost\n"),
        Fate::Rebuilt(exact) => {
            if exact {
                text(rt, b"rebuilt exactly\n")
            } else {
                text(rt, b"REBUILT WRONG\n")
            }
        }
        Fate::Refused(r) => match r {
            Refusal::NotLive => text(rt, b"refused 8: its context is not live\n"),
            Refusal::OutOfStep => text(rt, b"refused 9: out of step\n"),
            _ => text(rt, b"REFUSED\n"),
        },
    }
}

// Where and what the packet is, its link type, the bytes of its header before and on the link, and what became of it.
pub fn print_crossing(rt: &impl Print, c: Crossing) -> io::Result<()> {
    let v = voice_at(c.turn);
    column(rt, c.turn as u32)?;
    text(rt, b"  ")?;
    print_direction(rt, c.from_arm)?;
    text(rt, b"  timestamp ")?;
    column(rt, v.timestamp)?;
    text(rt, b"  payload type ")?;
    column(rt, v.payload)?;
    text(rt, b"  CSRC ")?;
    rt.print(v.sources)?;
    if c.kind == 0 {
        text(rt, b"  plain")?;
    } else if c.kind == 1 {
        text(rt, b"  FH")?;
    } else if c.kind == 2 {
        text(rt, b"  CU")?;
    } else {
        text(rt, b"  CR")?;
    }
    text(rt, b"  header ")?;
    column(rt, c.before)?;
    text(rt, b" to ")?;
    column(rt, c.after)?;
    text(rt, b"  ")?;
    let fate = c.fate;
    print_fate(rt, fate)
}

// A report that goes against the direction of the packets that it is about.
pub fn print_report(rt: &impl Print, turn: u8, from_arm: bool, length: usize) -> io::Result<()> {
    column(rt, turn as u32)?;
    text(rt, b"  ")?;
    print_direction(rt, !from_arm)?;
    text(rt, b"  report of ")?;
    rt.print(length)?;
    text(rt, b" bytes: full headers are asked for\n")
}

pub fn print_count(rt: &impl Print, from_arm: bool, c: Count) -> io::Result<()> {
    print_direction(rt, from_arm)?;
    text(rt, b": ")?;
    column(rt, c.sent)?;
    text(rt, b" packets, ")?;
    column(rt, c.lost)?;
    text(rt, b" lost, ")?;
    column(rt, c.exact)?;
    text(rt, b" rebuilt exactly; header bytes ")?;
    column(rt, c.before)?;
    text(rt, b" before, ")?;
    column(rt, c.after)?;
    text(rt, b" on the link\n")
}

pub fn print_totals(rt: &impl Print, t: [u32; Totals::COUNT]) -> io::Result<()> {
    column(rt, t[0])?;
    text(rt, b" plain, ")?;
    column(rt, t[1])?;
    text(rt, b" FH, ")?;
    column(rt, t[2])?;
    text(rt, b" CU, ")?;
    column(rt, t[3])?;
    text(rt, b" CR sent; ")?;
    column(rt, t[4])?;
    text(rt, b" rebuilt; ")?;
    column(rt, t[5])?;
    text(rt, b" refused\n")
}
