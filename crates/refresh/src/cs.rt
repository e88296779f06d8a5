ghost use Rattle.std.specs.Prelude.{◌≡◌, true, ◌≤◌, ◌<◌, ◌+◌, ◌*◌, length, [], ◌∷◌};
ghost use Rattle.octets.specs.Put.{Wrote};
ghost use Rattle.octets.specs.Flags.{flags_of, byte_of};
ghost use Rattle.packet.specs.Refusal.{verdict_number};
ghost use Rattle.links.specs.Cs.{record_flags_of, record_flags_bits, record_bytes};
ghost use Rattle.links.specs.Cs.{record_count, record_context, record_asks, record_judged, records_judged, request_judged};

use links::cs::RecordFlags;
use octets::flags::{Flags, pack, split};
use octets::put::put;
use packet::refusal::Refusal;

fn index(byte: u8) -> usize
    ensures { (result ≡ byte) × (result < 256) }
{
    byte as usize
}

// The flag byte of a record, its bits by name.
fn split_record(byte: u8) -> RecordFlags
    ensures { result ≡ record_flags_of (flags_of byte) }
{
    let flags = split(byte);
    RecordFlags {
        asks: flags.bit7,
        zero1: flags.bit6,
        zero2: flags.bit5,
        zero3: flags.bit4,
        link: flags.low,
    }
}

// The same byte packed again.
fn pack_record(flags: RecordFlags) -> u8
    requires { flags.link < 16 }
    ensures { result ≡ byte_of (record_flags_bits flags) }
{
    pack(Flags {
        bit7: flags.asks,
        bit6: flags.zero1,
        bit5: flags.zero2,
        bit4: flags.zero3,
        low: flags.link,
    })
}

// How many records a request has.
pub fn record_count(s: &[u8]) -> usize
    requires { 2 ≤ length s.now }
    ensures { (result ≡ record_count s.now) × (result < 256) }
{
    index(s[1])
}

// One record: its context number first, then the bits that 6.6 has as 0. A top bit of 0 is not refused.
fn judge_record(contexts: u8, s: &[u8], i: usize) -> Result<(), Refusal>
    requires { 2 + 3 * i + 3 ≤ length s.now }
    ensures { verdict_number result ≡ record_judged contexts s.now i }
{
    let at = 2 + 3 * i;
    if contexts <= s[at] {
        return Err(Refusal::NoSuchContext);
    }
    let flags = split_record(s[at + 1]);
    if flags.zero1 | flags.zero2 | flags.zero3 | (s[at + 2] >> 6 != 0) {
        return Err(Refusal::Forbidden);
    }
    Ok(())
}

// n records from the first on.
fn judge_records(contexts: u8, s: &[u8], n: usize) -> Result<(), Refusal>
    requires { 2 + 3 * n ≤ length s.now }
    ensures { verdict_number result ≡ records_judged contexts s.now 0 n }
{
    for i in 0..n {
        match judge_record(contexts, s, i) {
            Ok(()) => {}
            Err(why) => {
                return Err(why);
            }
        }
    }
    Ok(())
}

// A request of any bytes, judged whole.
pub fn judge_request(contexts: u8, s: &[u8]) -> Result<(), Refusal>
    ensures { verdict_number result ≡ request_judged contexts s.now }
{
    if s.len() < 2 {
        return Err(Refusal::Cut);
    }
    let count = record_count(s);
    if (s[0] != 1) | (count == 0) {
        return Err(Refusal::Forbidden);
    }
    if s.len() != 2 + 3 * count {
        return Err(Refusal::Cut);
    }
    judge_records(contexts, s, count)
}

// What a record says: its context number, and whether it asks for a full-header run.
pub fn record_context(s: &[u8], i: usize) -> u8
    requires { 2 + 3 * i + 3 ≤ length s.now }
    ensures { result ≡ record_context s.now i }
{
    s[2 + 3 * i]
}

pub fn record_asks(s: &[u8], i: usize) -> bool
    requires { 2 + 3 * i + 3 ≤ length s.now }
    ensures { result ≡ record_asks s.now i }
{
    let flags = split_record(s[2 + 3 * i + 1]);
    flags.asks
}

// Type code and count, which stand before the records.
pub fn put_count(out: &mut [u8], at: usize, count: u8) -> usize
    requires { at + 2 ≤ length out.old }
    ensures { (result ≡ at + 2) × Wrote out.old out.new at result (1 ∷ count ∷ []) }
{
    let at = put(out, at, 1u8);
    put(out, at, count)
}

// The record of one context.
pub fn put_record(out: &mut [u8], at: usize, context: u8, link: u8, generation: u8) -> usize
    requires { (link < 16) × (at + 3 ≤ length out.old) }
    ensures { (result ≡ at + 3) × Wrote out.old out.new at result (record_bytes context link generation) }
{
    let flags = pack_record(RecordFlags {
        asks: true,
        zero1: false,
        zero2: false,
        zero3: false,
        link: link,
    });
    let at = put(out, at, context);
    let at = put(out, at, flags);
    put(out, at, generation)
}
