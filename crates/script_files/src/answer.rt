use crtp::DecompressorOutcome;
use script_shared::refusal::refusal_number;
use script_text::answer::put_output;
use script_text::text::put_number;

fn number_of(o: DecompressorOutcome) -> u64 {
    match o {
        Ok(_) => 0,
        Err(r) => refusal_number(r),
    }
}

fn length_of(o: DecompressorOutcome) -> usize {
    o.unwrap_or(0)
}

// What a load answers: its number.
pub fn put_loaded(text: &mut [u8], at: usize, o: DecompressorOutcome) -> usize {
    put_number(text, at, number_of(o))
}

// What a save answers: its number, and what it gave out.
pub fn put_saved(text: &mut [u8], at: usize, o: DecompressorOutcome, output: &[u8]) -> usize {
    let a = put_number(text, at, number_of(o));
    put_output(text, a, output, length_of(o))
}
