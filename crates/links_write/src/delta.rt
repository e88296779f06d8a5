ghost use Rattle.std.specs.Prelude.{◌≡◌, cond, ◌≤◌, ◌+◌, length};
ghost use Rattle.octets.specs.Put.{Wrote};
ghost use Rattle.links.specs.Sent.{whole_as, delta_as};

use codes::code::encode;
use codes::field::DeltaField;
use octets::put::{code_size, put, put_code};
use octets::written::Written;

pub fn size_if(wanted: bool, n: usize) -> usize
    ensures { (result ≡ cond wanted n 0) × (result ≤ n) }
{
    if wanted { n } else { 0 }
}

// A field that may be sent whole: the putting of it.
#[tactic(auto, using(octets::specs::PutLaws::wrote_nothing))]
pub fn put_whole<T: Written>(out: &mut [u8], at: usize, field: Option<T>) -> usize
    requires { at + length (whole_as T.bytes field) ≤ length out.old }
    ensures { Wrote out.old out.new at result (whole_as T.bytes field) }
{
    match field {
        Some(v) => put(out, at, v),
        None => at,
    }
}

// A difference that may be sent: how many bytes it has, and the putting of it.
pub fn delta_size<T: DeltaField>(d: Option<T>) -> usize
    ensures { (result ≡ length (delta_as T.value T.bits d)) × (result ≤ 3) }
{
    match d {
        Some(d) => code_size(encode(d)),
        None => 0,
    }
}

#[tactic(auto, using(octets::specs::PutLaws::wrote_nothing))]
pub fn put_delta<T: DeltaField>(out: &mut [u8], at: usize, d: Option<T>) -> usize
    requires { at + length (delta_as T.value T.bits d) ≤ length out.old }
    ensures { Wrote out.old out.new at result (delta_as T.value T.bits d) }
{
    match d {
        Some(d) => put_code(out, at, encode(d)),
        None => at,
    }
}
