ghost use Rattle.std.specs.Prelude.{◌≡◌, true, ◌≤◌, ◌+◌, length};
ghost use Rattle.octets.specs.Put.{Wrote};
ghost use Rattle.context.specs.Sound.{sound_decompressor};
ghost use Rattle.packet.specs.Ranges.{Narrow};
ghost use Rattle.saves.specs.Saves.{kept, header_part, used_bytes, record_bytes};

use context::decompressor::{DecompressorContext, Status};
use decompress::header::rebuild;
use headers_read::read::{header_size, size_with};
use headers_write::write::put_header;
use octets::put::put;
use saves::layout::{BROKEN, EMPTY, LIVE};

// How many bytes the record of a context in use has, be it live or broken.
fn used_size(c: DecompressorContext) -> usize
    requires { Narrow (kept c) }
    ensures { (result ≡ length (used_bytes 1 c)) × (result ≤ 110) }
{
    if c.filled {
        return 10 + size_with(c.csrc.count as usize);
    }
    10
}

pub fn record_size(c: DecompressorContext) -> usize
    requires { sound_decompressor c ≡ true }
    ensures { (result ≡ length (record_bytes c)) × (result ≤ 110) }
{
    match c.status {
        Status::Empty => 1,
        Status::Live | Status::Broken => used_size(c),
    }
}

// The size of the header and the header, 0 alone where no full header ever came. Lengths and IP checksum would say nothing, and of
// the UDP checksum only whether it is carried is kept.
fn put_kept(out: &mut [u8], at: usize, c: DecompressorContext) -> usize
    requires { Narrow (kept c) × (at + length (header_part c) ≤ length out.old) }
    ensures { Wrote out.old out.new at result (header_part c) }
{
    if !c.filled {
        return put(out, at, 0u8);
    }
    let header = rebuild(c, 0xFFFF);
    let size = header_size(header);
    let at = put(out, at, size as u8);
    put_header(out, at, header, 0, 0, 0)
}

fn put_used(out: &mut [u8], at: usize, state: u8, c: DecompressorContext) -> usize
    requires { Narrow (kept c) × (at + length (used_bytes state c) ≤ length out.old) }
    ensures { Wrote out.old out.new at result (used_bytes state c) }
{
    let at = put(out, at, state);
    let at = put(out, at, c.link.generation);
    let at = put(out, at, c.link.sequence);
    let at = put(out, at, c.deltas.id);
    let at = put(out, at, c.deltas.timestamp);
    put_kept(out, at, c)
}

pub fn put_record(out: &mut [u8], at: usize, c: DecompressorContext) -> usize
    requires { (sound_decompressor c ≡ true) × (at + length (record_bytes c) ≤ length out.old) }
    ensures { Wrote out.old out.new at result (record_bytes c) }
{
    match c.status {
        Status::Empty => { put(out, at, EMPTY) }
        Status::Live => { put_used(out, at, LIVE, c) }
        Status::Broken => { put_used(out, at, BROKEN, c) }
    }
}
