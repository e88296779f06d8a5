// Two endpoints, arm and desk, over a radio: voice both ways, and from the arm to the desk packets are lost.
//
// The voice has a pause, a change of payload type and a change of the CSRC list. Now and then two packets in a row are lost, which
// is as many as both endpoints are opened for: what comes after them is rebuilt all the same. Once three are: the desk refuses what
// comes next, its report goes back over the radio, and the arm sends full headers again. The other direction is not disturbed.
// Read `run::half_turn` first.
#![tactic(auto)]

mod place;
mod run;
mod show;
mod stream;

use std::io;

fn main(rt: HostRuntime) -> io::Result<()> {
    show::text(
        &rt,
        b"each turn arm and desk send a packet of speech; both are opened for 2 packets lost in a row\n",
    )?;
    show::text(
        &rt,
        b"not shown: packets that go as CR and are rebuilt exactly\n",
    )?;
    let arm = place::opened(2, 4);
    let desk = place::opened(2, 4);
    let none = show::Count {
        sent: 0,
        lost: 0,
        exact: 0,
        before: 0,
        after: 0,
    };
    let mut link = run::Link {
        from_arm: true,
        sender: arm,
        receiver: desk,
        count: none,
        back: none,
    };
    for turn in 0..stream::TURNS {
        let half = run::half_turn(&rt, link, turn)?;
        link = run::half_turn(&rt, half, turn)?;
    }
    let there = link.count;
    let back = link.back;
    show::print_count(&rt, true, there)?;
    show::print_count(&rt, false, back)?;
    let one = link.sender;
    let other = link.receiver;
    show::text(&rt, b"arm:  ")?;
    let totals = one.totals;
    show::print_totals(&rt, totals)?;
    show::text(&rt, b"desk: ")?;
    let totals = other.totals;
    show::print_totals(&rt, totals)
}
