ghost use Rattle.std.specs.Prelude.{◌≤◌};

pub const TURNS: u8 = 60;

// Room for any packet of the stream, before the link and on it.
pub const ROOM: usize = 64;

// Bytes of speech in every packet.
pub const PAYLOAD: usize = 20;

// What changes from packet to packet; sources is how many CSRCs there are, and a marker of 1 says that speech begins.
#[derive(Clone, Copy)]
pub struct Voice {
    pub marker: u32,
    pub payload: u32,
    pub timestamp: u32,
    pub sources: u32,
}

fn one_if(b: bool) -> u32
    ensures { result ≤ 1 }
{
    if b { 1 } else { 0 }
}

// 20 ms of speech at 8,000 samples a second, with a pause of a second before turn 16. With turn 40 the codec changes, and from turn
// 50 on a mixer names one source.
pub fn voice_at(turn: u8) -> Voice
    ensures { (result.marker ≤ 1) × (result.payload ≤ 18) × (result.sources ≤ 1) }
{
    Voice {
        marker: one_if((turn == 0) | (turn == 16)),
        payload: 18 * one_if(turn >= 40),
        timestamp: 10000 + 160 * (turn as u32) + 8000 * one_if(turn >= 16),
        sources: one_if(turn >= 50),
    }
}

// The words of a packet, as IPv4, UDP and RTP are drawn. The arm is 10.0.0.1 with port 5000, the desk 10.0.0.2 with port 5002; the
// SSRC is the sender's address. There is no UDP checksum; in IPv4's, what does not change adds up to D9CC, and nothing is carried.
// Without a CSRC the payload begins a word earlier, and the last word is none of the packet's.
fn words_of(v: Voice, turn: u8, from_arm: bool) -> [u32; 16]
    requires { (v.marker ≤ 1) × (v.payload ≤ 18) × (v.sources ≤ 1) }
{
    let n = turn as u32;
    let total = 60 + 4 * v.sources;
    let id = 7000 + n;
    let speech = 0x0101_0101 * n;
    let source = if from_arm { 0x0A00_0001 } else { 0x0A00_0002 };
    let destination = if from_arm { 0x0A00_0002 } else { 0x0A00_0001 };
    let ports = if from_arm { 0x1388_138A } else { 0x138A_1388 };
    let first = if v.sources == 1 { 0x00C0_FFEE } else { speech };
    [
        0x45B8_0000 + total,
        0x1_0000 * id + 0x4000,
        0x4011_0000 + 0xFFFF - 0xD9CC - total - id,
        source,
        destination,
        ports,
        0x1_0000 * (total - 20),
        0x8000_0000
            + 0x100_0000 * v.sources
            + 0x80_0000 * v.marker
            + 0x1_0000 * v.payload
            + 100
            + n,
        v.timestamp,
        source,
        first,
        speech,
        speech,
        speech,
        speech,
        speech,
    ]
}

// Writes the packet of a turn and answers its length.
pub fn put_packet(out: &mut [u8; ROOM], turn: u8, from_arm: bool) -> usize
    ensures { (20 ≤ result) × (result ≤ 64) }
{
    let v = voice_at(turn);
    let words = words_of(v, turn, from_arm);
    for at in 0..ROOM {
        let place = 24 - 8 * (at % 4);
        out[at] = ((words[at / 4] >> place) % 256) as u8;
    }
    (60 + 4 * v.sources) as usize
}

// What the radio loses from the arm to the desk: two in a row, as many as both are opened for, and once three.
pub fn is_lost(turn: u8) -> bool {
    match turn {
        9..=10 | 17..=18 | 25..=27 | 41..=42 | 51..=52 => true,
        _ => false,
    }
}
