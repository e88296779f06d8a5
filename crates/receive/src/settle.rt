ghost use Rattle.std.specs.Prelude.{◌≡◌, ℕ, ◌≤◌, length};
ghost use Rattle.packet.specs.Ranges.{Narrow};
ghost use Rattle.context.specs.Decompressor.{effect_of, rebuilt};
ghost use Rattle.decompressor.specs.Receive.{rebuild_to, settle, settle_read};
ghost use Rattle.receive.specs.Taken.{Takes};

use crate::judge::is_disproved;
use crate::output::{packet_size, put_packet};
use context::decompressor::{Applied, DecompressorContext};
use decompress::apply::break_context;
use decompress::header::rebuild;
use decompressor::answer::Outcome;
use fields::place::Place;
use packet::refusal::Refusal;
use settings::Settings;

// What became of a link packet on its context, and the context that it leaves: as it was, moved on, or broken.
//
// The functions here work on a copy of the context, so that no table is handed about.
#[derive(Clone, Copy)]
pub struct Taken {
    pub outcome: Outcome,
    pub context: DecompressorContext,
}

// The fields of a CU or CR: the place past them, what the context makes of them, and the UDP checksum that came.
#[derive(Clone, Copy)]
pub struct Arrived {
    pub place: Place,
    pub applied: Applied,
    pub checksum: u16,
}

// A packet that its context accepted, g steps on. The context is moved on only where the packet could be given out, and broken
// where the UDP checksum disproves the packet.
pub fn rebuild_to(
    before: DecompressorContext,
    g: u8,
    c: DecompressorContext,
    sent: u16,
    rest: &[u8],
    out: &mut [u8],
) -> Taken
    requires { Narrow (rebuilt c sent) × (length rest.now ≤ 1500) }
    ensures { (n : ℕ) → Takes n before result out.new (λ t i. rebuild_to t i g c sent rest.now out.old) }
{
    let header = rebuild(c, sent);
    let size = packet_size(header, rest);
    if Settings::LONGEST < size {
        return Taken {
            outcome: Err(Refusal::TooLong),
            context: before,
        };
    }
    if is_disproved(c, g, header, rest, size) {
        let broken = break_context(before);
        return Taken {
            outcome: Err(Refusal::Disproved),
            context: broken,
        };
    }
    if out.len() < size {
        return Taken {
            outcome: Err(Refusal::NoRoom),
            context: before,
        };
    }
    put_packet(out, header, rest, size);
    Taken {
        outcome: Ok(size),
        context: c,
    }
}

// What its context made of a packet. A context that refused it is left broken.
pub fn settle(
    before: DecompressorContext,
    a: Applied,
    sent: u16,
    rest: &[u8],
    out: &mut [u8],
) -> Taken
    requires { ((effect_of a).number ≡ 0 → Narrow (rebuilt a.context sent)) × (length rest.now ≤ 1500) }
    ensures { (n : ℕ) → Takes n before result out.new
        (λ t i. settle (effect_of a) t i sent rest.now out.old) }
{
    match a.verdict {
        Ok(()) => { rebuild_to(before, a.gap, a.context, sent, rest, out) }
        Err(why) => Taken {
            outcome: Err(why),
            context: a.context,
        },
    }
}

// The fields of a packet, read to a place. Where they were refused, what the context would make of them is not looked at.
pub fn settle_read(
    before: DecompressorContext,
    p: Place,
    a: Applied,
    sent: u16,
    s: &[u8],
    out: &mut [u8],
) -> Taken
    requires { ((effect_of a).number ≡ 0 → Narrow (rebuilt a.context sent)) × (p.cursor.at ≤ length s.now)
        × (length s.now ≤ 1500) }
    ensures { (n : ℕ) → Takes n before result out.new
        (λ t i. settle_read p (effect_of a) t i sent s.now out.old) }
{
    match p.verdict {
        Ok(()) => { settle(before, a, sent, &s[p.cursor.at..], out) }
        Err(why) => Taken {
            outcome: Err(why),
            context: before,
        },
    }
}
