ghost use Rattle.std.specs.Prelude.{◌≡◌, cond, ◌≤◌, ◌+◌, ◌*◌, length, take, Some};
ghost use Rattle.codes.specs.Code.{bytes_of};
ghost use Rattle.octets.specs.Put.{Wrote, list_bytes, optional, words};

use crate::written::Written;
use codes::code::Code;
use packet::csrc::Csrc;

// Each put stores some bytes in out from at on, and answers the place past them.
pub fn put<T: Written>(out: &mut [u8], at: usize, v: T) -> usize
    requires { at + length (T.bytes v) ≤ length out.old }
    ensures { Wrote out.old out.new at result (T.bytes v) }
{
    v.put(out, at)
}

// A field that is put where it is wanted.
pub fn put_if<T: Written>(out: &mut [u8], at: usize, wanted: bool, v: T) -> usize
    requires { at + cond wanted (length (T.bytes v)) 0 ≤ length out.old }
    ensures { (result ≡ at + cond wanted (length (T.bytes v)) 0)
        × Wrote out.old out.new at result (optional wanted (T.bytes v)) }
{
    if wanted { put(out, at, v) } else { at }
}

// The first n of fifteen words.
fn put_words(out: &mut [u8], at: usize, list: [u32; 15], n: usize) -> usize
    requires { (n ≤ 15) × (at + 4 * n ≤ length out.old) }
    ensures { (result ≡ at + 4 * n) × Wrote out.old out.new at result (words (take n list)) }
{
    let mut past = at;
    for word in &list[..n] {
        past = put(out, past, *word);
    }
    past
}

// The words of a CSRC list, as many as its count says.
pub fn put_list(out: &mut [u8], at: usize, list: Csrc) -> usize
    requires { (list.count ≤ 15) × (at + 4 * list.count ≤ length out.old) }
    ensures { (result ≡ at + 4 * list.count) × Wrote out.old out.new at result (list_bytes list) }
{
    let count = list.count as usize;
    let words = list.words;
    put_words(out, at, words, count)
}

// All of a slice: the copier of what is not changed.
pub fn put_all(out: &mut [u8], at: usize, s: &[u8]) -> usize
    requires { at + length s.now ≤ length out.old }
    ensures { Wrote out.old out.new at result s.now }
{
    for (i, v) in s.iter().enumerate() {
        out[at + i] = *v;
    }
    at + s.len()
}

fn put_bytes(out: &mut [u8], at: usize, code: Code) -> usize
    requires { at + length (bytes_of (Some code)) ≤ length out.old }
    ensures { Wrote out.old out.new at result (bytes_of (Some code)) }
{
    match code {
        Code::One(first) => { put(out, at, first) }
        Code::Two(first, second) => {
            let at = put(out, at, first);
            put(out, at, second)
        }
        Code::Three(first, second, third) => {
            let at = put(out, at, first);
            let at = put(out, at, second);
            put(out, at, third)
        }
    }
}

// The bytes of a difference's code; none where it has no code.
pub fn put_code(out: &mut [u8], at: usize, code: Option<Code>) -> usize
    requires { at + length (bytes_of code) ≤ length out.old }
    ensures { Wrote out.old out.new at result (bytes_of code) }
{
    match code {
        Some(code) => put_bytes(out, at, code),
        None => at,
    }
}

pub fn code_size(code: Option<Code>) -> usize
    ensures { (result ≡ length (bytes_of code)) × (result ≤ 3) }
{
    match code {
        None => 0,
        Some(Code::One(_)) => 1,
        Some(Code::Two(_, _)) => 2,
        Some(Code::Three(_, _, _)) => 3,
    }
}
