use crate::place;
use crate::place::Place;
use crate::show::{Count, Crossing, Fate, print_crossing, print_report};
use crate::stream::{PAYLOAD, ROOM, is_lost, put_packet};
use endpoint::Done;
use std::io;

// One direction of the radio link: who sends, who receives, and what was counted of it; back is what was counted of the other one.
#[derive(Clone, Copy)]
pub struct Link {
    pub from_arm: bool,
    pub sender: Place,
    pub receiver: Place,
    pub count: Count,
    pub back: Count,
}

// The first n bytes, or all where there are fewer.
fn front<'a>(s: &'a [u8; ROOM], n: usize) -> &'a [u8] {
    let all = &s[..];
    if ROOM < n {
        return all;
    }
    &all[0..n]
}

// What an arrival left, and what became of the packet.
#[derive(Clone, Copy)]
struct Arrived {
    place: Place,
    fate: Fate,
}

// A link packet that stands for p comes from the radio, or is lost.
fn receive(e: Place, lost: bool, kind: u8, link: &[u8], p: &[u8]) -> Arrived {
    if lost {
        return Arrived {
            place: e,
            fate: Fate::Lost,
        };
    }
    let mut out = [0u8; ROOM];
    let answer = place::from_radio(e, kind as u32, link, &mut out);
    let after = answer.place;
    let outcome = answer.outcome;
    match outcome {
        Ok(Done::Rebuilt(n)) => Arrived {
            place: after,
            fate: Fate::Rebuilt(check::same(front(&out, n), p)),
        },
        Err(r) => Arrived {
            place: after,
            fate: Fate::Refused(r),
        },
        _ => Arrived {
            place: after,
            fate: Fate::Rebuilt(false),
        },
    }
}

fn counted(c: Count, x: Crossing) -> Count {
    let mut next = c;
    next.sent = c.sent.wrapping_add(1);
    next.before = c.before.wrapping_add(x.before);
    next.after = c.after.wrapping_add(x.after);
    let fate = x.fate;
    match fate {
        Fate::Lost => next.lost = c.lost.wrapping_add(1),
        Fate::Rebuilt(exact) => next.exact = c.exact.wrapping_add(exact as u32),
        Fate::Refused(_) => {}
    }
    next
}

// The sender's packet comes from the wire and crosses the radio, or is lost there. A CR that is rebuilt exactly is not shown.
fn carry(rt: &impl Print, l: Link, turn: u8) -> io::Result<Link> {
    let mut packet = [0u8; ROOM];
    let mut link = [0u8; ROOM];
    let length = put_packet(&mut packet, turn, l.from_arm);
    let before = (length - PAYLOAD) as u32;
    let p = front(&packet, length);
    let sender = l.sender;
    let sent = place::from_wire(sender, p, &mut link);
    let mut next = l;
    let one = sent.place;
    next.sender = one;
    let outcome = sent.outcome;
    let Ok(Done::Sent(kind, linked)) = outcome else {
        return Ok(next);
    };
    let receiver = l.receiver;
    let lost = l.from_arm & is_lost(turn);
    let arrived = receive(receiver, lost, kind, front(&link, linked), p);
    let fate = arrived.fate;
    let crossing = Crossing {
        turn: turn,
        from_arm: l.from_arm,
        kind: kind,
        before: before,
        after: (linked.wrapping_sub(PAYLOAD) % 256) as u32,
        fate: fate,
    };
    let old = l.count;
    let new = counted(old, crossing);
    if (kind < 3) | (new.exact == old.exact) {
        print_crossing(rt, crossing)?;
    }
    let other = arrived.place;
    next.receiver = other;
    next.count = new;
    Ok(next)
}

// Every fifth turn the receiver reports over the radio what is broken, if anything is.
fn report(rt: &impl Print, l: Link, turn: u8) -> io::Result<Link> {
    if turn % 5 != 4 {
        return Ok(l);
    }
    let mut out = [0u8; ROOM];
    let receiver = l.receiver;
    let said = place::report(receiver, &mut out);
    let mut next = l;
    let other = said.place;
    next.receiver = other;
    let outcome = said.outcome;
    let Ok(Done::Reported(n)) = outcome else {
        return Ok(next);
    };
    if n == 0 {
        return Ok(next);
    }
    print_report(rt, turn, l.from_arm, n)?;
    let mut nothing = [0u8; 1];
    let sender = l.sender;
    let asked = place::from_radio(
        sender,
        endpoint::CONTEXT_STATE,
        front(&out, n),
        &mut nothing,
    );
    let one = asked.place;
    next.sender = one;
    Ok(next)
}

// One sends and hears the other's report; then they change places.
pub fn half_turn(rt: &impl Print, l: Link, turn: u8) -> io::Result<Link> {
    let carried = carry(rt, l, turn)?;
    let told = report(rt, carried, turn)?;
    let sender = told.receiver;
    let receiver = told.sender;
    let count = told.back;
    let back = told.count;
    Ok(Link {
        from_arm: !told.from_arm,
        sender: sender,
        receiver: receiver,
        count: count,
        back: back,
    })
}
