// An answer in one number, for callers that have no enums.
ghost use Rattle.std.specs.Prelude.{◌≡◌, ◌<◌};
ghost use Rattle.crtp.specs.Face.{refusal_number};
ghost use Rattle.iarwennol.specs.Packed.{packed, sent_packed, given_packed, answer_packed};

use crtp::{CompressorOutcome, DecompressorOutcome, Refusal};
use endpoint::{Done, Outcome};

fn number_of(r: Refusal) -> u64
    ensures { (result ≡ refusal_number r) × (result < 256) }
{
    match r {
        Refusal::Unsound => 1,
        Refusal::BadLength => 2,
        Refusal::UnknownType => 3,
        Refusal::Cut => 4,
        Refusal::Forbidden => 5,
        Refusal::NoSuchContext => 6,
        Refusal::UnusedCode => 7,
        Refusal::NotLive => 8,
        Refusal::OutOfStep => 9,
        Refusal::TooLong => 10,
        Refusal::NoRoom => 11,
        Refusal::Disproved => 12,
    }
}

// No length is near the limit that keeps the number in its width: a packet has 1,500 bytes at most, a file 7,045.
fn accepted(kind: u8, length: usize) -> u64
    ensures { result ≡ packed 0 kind length }
{
    256 * (kind as u64) + 65536 * (length as u64 % 281_474_976_710_656)
}

pub fn pack_sent(o: CompressorOutcome) -> u64
    ensures { result ≡ sent_packed o }
{
    match o {
        Ok((kind, length)) => accepted(kind, length),
        Err(r) => number_of(r),
    }
}

pub fn pack_given(o: DecompressorOutcome) -> u64
    ensures { result ≡ given_packed o }
{
    match o {
        Ok(length) => accepted(0, length),
        Err(r) => number_of(r),
    }
}

pub fn pack_answer(o: Outcome) -> u64
    ensures { result ≡ answer_packed o }
{
    match o {
        Ok(Done::Opened) => 0,
        Ok(Done::Sent(kind, length)) => accepted(kind, length),
        Ok(Done::Rebuilt(length)) => accepted(0, length),
        Ok(Done::Requested) => 0,
        Ok(Done::Reported(length)) => accepted(0, length),
        Err(r) => number_of(r),
    }
}
