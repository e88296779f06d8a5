use crate::turns::{wide, within};

// What went over the link in a round: packets of each type, header bytes, the sum of all bytes; and packets rebuilt exactly.
#[derive(Clone, Copy)]
pub struct Tally {
    pub full: u32,
    pub udp: u32,
    pub rtp: u32,
    pub header: u32,
    pub sum: u32,
    pub exact: u32,
}

pub fn nothing() -> Tally {
    Tally {
        full: 0,
        udp: 0,
        rtp: 0,
        header: 0,
        sum: 0,
        exact: 0,
    }
}

fn sum_of(s: &[u8]) -> u32 {
    let mut sum = 0u32;
    for b in s {
        sum = sum.wrapping_add(wide(*b));
    }
    sum
}

// One link packet more.
fn with_link(t: Tally, kind: u8, link: &[u8]) -> Tally {
    let mut u = t;
    u.full = t.full.wrapping_add(u32::from(kind == 1));
    u.udp = t.udp.wrapping_add(u32::from(kind == 2));
    u.rtp = t.rtp.wrapping_add(u32::from(kind == 3));
    let length = (link.len() % 65536) as u32;
    u.header = t.header.wrapping_add(length.wrapping_sub(160));
    u.sum = t.sum.wrapping_add(sum_of(link));
    u
}

fn with_rebuilt(t: Tally, packet: &[u8], rebuilt: &[u8]) -> Tally {
    let mut u = t;
    u.exact = t
        .exact
        .wrapping_add(u32::from(check::same(packet, rebuilt)));
    u
}

pub fn count_batch(
    t: Tally,
    packets: &[u8],
    links: &[u8],
    kinds: &[u8],
    lengths: &[usize],
    rebuilt: &[u8],
) -> Tally {
    if packets.len() != 12800 {
        return t;
    }
    if links.len() != 12800 {
        return t;
    }
    if rebuilt.len() != 12800 {
        return t;
    }
    if kinds.len() != 64 {
        return t;
    }
    if lengths.len() != 64 {
        return t;
    }
    let mut u = t;
    for i in 0..64 {
        let at = 200 * i;
        let end = at + 200;
        let past = at + within(lengths[i]);
        u = with_link(u, kinds[i], &links[at..past]);
        u = with_rebuilt(u, &packets[at..end], &rebuilt[at..end]);
    }
    u
}
