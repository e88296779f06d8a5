ghost use Rattle.std.specs.Prelude.{◌≡◌, not, eqb, length};
ghost use Rattle.crtp.specs.Face.{refusal_number, unsound};
ghost use Rattle.endpoint.specs.Totals.{more, totals_of};

use crtp::Refusal;

// What an endpoint did since it was opened: packets that it sent plain, as FULL_HEADER, COMPRESSED_UDP and COMPRESSED_RTP; packets
// that it rebuilt, plain ones too; calls that it refused, but for those that found a table unsound.
#[derive(Clone, Copy)]
pub struct Totals {
    pub plain: u32,
    pub full: u32,
    pub udp: u32,
    pub rtp: u32,
    pub rebuilt: u32,
    pub refused: u32,
}

impl Totals {
    // How many there are, and so how long the slice is that holds them, in the order above.
    pub const COUNT: usize = 6;

    // Where a total stops.
    pub const LAST: u32 = 4_294_967_295;
}

// The totals that a slice holds.
pub fn totals_at(t: &[u32]) -> Totals
    requires { length t.now ≡ 6 }
    ensures { result ≡ totals_of t.now }
{
    Totals {
        plain: t[0],
        full: t[1],
        udp: t[2],
        rtp: t[3],
        rebuilt: t[4],
        refused: t[5],
    }
}

pub fn put_totals(t: &mut [u32], x: Totals)
    requires { length t.old ≡ 6 }
    ensures { (length t.new ≡ 6) × (totals_of t.new ≡ x) }
{
    t[0] = x.plain;
    t[1] = x.full;
    t[2] = x.udp;
    t[3] = x.rtp;
    t[4] = x.rebuilt;
    t[5] = x.refused;
}

// A total, where something counts in it or does not.
pub fn count(counts: bool, n: u32) -> u32
    ensures { result ≡ more counts n }
{
    if counts & (n < Totals::LAST) {
        return n + 1;
    }
    n
}

// Whether a refusal counts: not that of a table which is not sound.
pub fn is_counted(r: Refusal) -> bool
    ensures { result ≡ not (eqb (refusal_number r) unsound) }
{
    match r {
        Refusal::Unsound => false,
        Refusal::BadLength => true,
        Refusal::UnknownType => true,
        Refusal::Cut => true,
        Refusal::Forbidden => true,
        Refusal::NoSuchContext => true,
        Refusal::UnusedCode => true,
        Refusal::NotLive => true,
        Refusal::OutOfStep => true,
        Refusal::TooLong => true,
        Refusal::NoRoom => true,
        Refusal::Disproved => true,
    }
}
