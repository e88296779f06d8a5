// The context-state report: what the decompressor says of its broken contexts, so that the compressor sends them full headers.
//
// The table is lent (`decompressor_table`), the bytes of a record are `refresh`'s. A report changes nothing, and reads no more than
// three planes of the bytes where the table is sound.
// Read `specs/Report.antt` first: `report_of` says all that a report does.
#![tactic(auto)]

ghost use Rattle.std.specs.Prelude.{◌≡◌, true, cond, ◌≤◌, ◌<◌, ◌+◌, length};
ghost use Rattle.octets.specs.Put.{Wrote};
ghost use Rattle.links.specs.Cs.{records_bytes};
ghost use Rattle.decompressor.specs.Answer.{said};
ghost use Rattle.planes.specs.Planes.{lent, cell, every};
ghost use Rattle.decompressor_table.specs.Layout.{table_of};
ghost use Rattle.report.specs.Report.{states_from, report_of};
ghost use Rattle.report.specs.Told.{broken_at, states_at, linked_at, told};

use decompressor::answer::Outcome;
use decompressor_table::layout::Layout;
use decompressor_walk::sound::sound;
use packet::refusal::Refusal;
use refresh::cs::{put_count, put_record};
use settings::Settings;

// How many records a context has: one where it is broken.
fn records_at(b: &[u8], i: usize) -> usize
    requires { (length b.now ≡ 834) × (i < 64) }
    ensures { (result ≡ cond (broken_at b.now i) 1 0) × (result ≤ 1) }
{
    usize::from(1 < b[Layout::STATUS + i])
}

fn count_records(b: &[u8]) -> usize
    requires { length b.now ≡ 834 }
    ensures { (result ≡ length (states_from 0 (told b.now))) × (result ≤ 64) }
{
    let mut n = 0;
    for i in 0..Settings::PLACES {
        n += records_at(b, i);
    }
    n
}

// The record of the context at place i, where it is broken.
fn put_state(out: &mut [u8], at: usize, b: &[u8], i: usize) -> usize
    requires { (length b.now ≡ 834) × (i < 64) × (cell b.now 11 i ≤ 15)
        × (at + length (records_bytes (states_at b.now i)) ≤ length out.old) }
    ensures { Wrote out.old out.new at result (records_bytes (states_at b.now i)) }
{
    if b[Layout::STATUS + i] <= 1 {
        return at;
    }
    put_record(
        out,
        at,
        i as u8,
        b[Layout::LINK_SEQUENCE + i],
        b[Layout::LINK_GENERATION + i],
    )
}

fn put_states(out: &mut [u8], at: usize, b: &[u8]) -> usize
    requires { (length b.now ≡ 834) × (every (linked_at b.now) 64 ≡ true)
        × (at + length (records_bytes (states_from 0 (told b.now))) ≤ length out.old) }
    ensures { Wrote out.old out.new at result (records_bytes (states_from 0 (told b.now))) }
{
    let mut o = at;
    for i in 0..Settings::PLACES {
        o = put_state(out, o, b, i);
    }
    o
}

// With no context broken nothing is given out, whatever the output.
pub fn report(w: &[u32], h: &[u16], b: &[u8], out: &mut [u8]) -> Outcome
    ensures { said result (table_of (lent w.now h.now b.now)) out.new
        ≡ report_of (table_of (lent w.now h.now b.now)) out.old }
{
    if !sound(w, h, b) {
        return Err(Refusal::Unsound);
    }
    let n = count_records(b);
    if n == 0 {
        return Ok(0);
    }
    let size = 2 + 3 * n;
    if out.len() < size {
        return Err(Refusal::NoRoom);
    }
    let a = put_count(out, 0, n as u8);
    put_states(out, a, b);
    Ok(size)
}
