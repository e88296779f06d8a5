// The walk over the lists of a table, whose words are fifteen planes. Both ends make it, over planes of their own.
ghost use Rattle.std.specs.Prelude.{◌≡◌, ◌≤◌, ◌<◌, ◌+◌, ◌*◌, length, eqb};
ghost use Rattle.planes.specs.Planes.{cell, every, past_at};

use crate::every::every_below;
use packet::csrc::Csrc;

// Plane f: 0 at every place.
fn plane_free(w: &[u32], f: usize) -> bool
    requires { 64 * (f + 1) ≤ length w.now }
    ensures { result ≡ every (λ i. eqb (cell w.now f i) 0) 64 }
{
    let first = 64 * f;
    every_below(64, |i| w[first + i] == 0)
}

// Word k of the lists, in plane f + k: 0 where the count, in plane c, does not reach past it.
fn plane_past(w: &[u32], f: usize, b: &[u8], c: usize, k: u8) -> bool
    requires { (64 * (f + 15) ≤ length w.now) × (64 * (c + 1) ≤ length b.now) × (k < 15) }
    ensures { result ≡ every (past_at f c w.now b.now k) 64 }
{
    let words = 64 * (f + k as usize);
    let counts = 64 * c;
    every_below(64, |i| (k < b[counts + i]) | (w[words + i] == 0))
}

// Where no list reaches so far the plane alone tells; with the counts beside it a plane takes several times as long.
fn plane_ended(w: &[u32], f: usize, b: &[u8], c: usize, k: u8) -> bool
    requires { (64 * (f + 15) ≤ length w.now) × (64 * (c + 1) ≤ length b.now) × (k < 15) }
    ensures { result ≡ every (past_at f c w.now b.now k) 64 }
{
    if plane_free(w, f + k as usize) {
        return true;
    }
    plane_past(w, f, b, c, k)
}

// Whether every list is 0 past its count. The words are the planes of w from f on, the counts plane c of b.
pub fn are_ended(w: &[u32], f: usize, b: &[u8], c: usize) -> bool
    requires { (64 * (f + 15) ≤ length w.now) × (64 * (c + 1) ≤ length b.now) }
    ensures { result ≡ every (λ k. every (past_at f c w.now b.now k) 64) 15 }
{
    every_below(Csrc::PLACES, |k| plane_ended(w, f, b, c, k as u8))
}
