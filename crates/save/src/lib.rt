// A save: the decompressor's table as bytes, so that it can be taken up again where it stands.
//
// The layout is `saves`': read its `specs/Saves.antt` first, where `save_of` says all that a save does. The table is lent
// (`decompressor_table`), and a save changes nothing of it.
#![tactic(auto)]

pub mod record;

ghost use Rattle.std.specs.Prelude.{◌≡◌, true, ◌<◌, ◌≤◌, ◌+◌, length, take};
ghost use Rattle.octets.specs.Put.{Wrote};
ghost use Rattle.planes.specs.Planes.{lent};
ghost use Rattle.decompressor.specs.Answer.{said};
ghost use Rattle.decompressor.specs.Table.{sound_of};
ghost use Rattle.decompressor_table.specs.Layout.{context_in, table_of};
ghost use Rattle.saves.specs.Saves.{front_bytes, record_bytes, records_bytes, save_of};

use crate::record::{put_record, record_size};
use decompressor::answer::Outcome;
use decompressor_table::layout::Layout;
use decompressor_table::read::context_at;
use decompressor_walk::sound::sound;
use octets::put::put;
use packet::refusal::Refusal;
use saves::layout::{EMPTY, VERSION};
use settings::Settings;

// How many bytes the records of the first n contexts have.
fn records_size(w: &[u32], h: &[u16], b: &[u8], n: usize) -> usize
    requires { (sound_of (table_of (lent w.now h.now b.now)) ≡ true) × (n ≤ 64) }
    ensures { (result
        ≡ length (records_bytes (take n (table_of (lent w.now h.now b.now)).contexts)))
        × (result ≤ 7040) }
{
    let mut size = 0;
    for i in 0..n {
        size += record_size(context_at(w, h, b, i));
    }
    size
}

// Version, N and K.
fn put_front(out: &mut [u8], at: usize, s: Settings) -> usize
    requires { at + 3 ≤ length out.old }
    ensures { Wrote out.old out.new at result (front_bytes s) }
{
    let at = put(out, at, VERSION);
    let at = put(out, at, s.repeats);
    put(out, at, s.contexts)
}

// The record of the context at place i. Where it is empty its status tells all: nothing else of it is read.
fn put_record_at(w: &[u32], h: &[u16], b: &[u8], i: usize, out: &mut [u8], at: usize) -> usize
    requires { (sound_of (table_of (lent w.now h.now b.now)) ≡ true) × (i < 64)
        × (at + length (record_bytes (context_in w.now h.now b.now i)) ≤ length out.old) }
    ensures { Wrote out.old out.new at result (record_bytes (context_in w.now h.now b.now i)) }
{
    if b[Layout::STATUS + i] == EMPTY {
        return put(out, at, EMPTY);
    }
    put_record(out, at, context_at(w, h, b, i))
}

// The records of the first n contexts.
fn put_records(w: &[u32], h: &[u16], b: &[u8], n: usize, out: &mut [u8], at: usize) -> usize
    requires { (sound_of (table_of (lent w.now h.now b.now)) ≡ true) × (n ≤ 64)
        × (at + length (records_bytes (take n (table_of (lent w.now h.now b.now)).contexts)) ≤ length out.old) }
    ensures { Wrote out.old out.new at result
        (records_bytes (take n (table_of (lent w.now h.now b.now)).contexts)) }
{
    let mut past = at;
    for i in 0..n {
        past = put_record_at(w, h, b, i, out, past);
    }
    past
}

// The length of all that follows it comes first, so that a cut is seen before a record is read.
pub fn save(w: &[u32], h: &[u16], b: &[u8], out: &mut [u8]) -> Outcome
    ensures { said result (table_of (lent w.now h.now b.now)) out.new
        ≡ save_of (table_of (lent w.now h.now b.now)) out.old }
{
    if !sound(w, h, b) {
        return Err(Refusal::Unsound);
    }
    let settings = Settings {
        repeats: b[Layout::REPEATS],
        contexts: b[Layout::CONTEXTS],
    };
    let k = settings.contexts as usize;
    let body = 3 + records_size(w, h, b, k);
    if out.len() < 2 + body {
        return Err(Refusal::NoRoom);
    }
    let at = put(out, 0, body as u16);
    let at = put_front(out, at, settings);
    put_records(w, h, b, k, out, at);
    Ok(2 + body)
}
