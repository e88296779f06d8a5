use script_text::answer::put_next;
use script_text::text::put_number;

// The totals in their own order, which is that of showing.
pub fn put_totals(text: &mut [u8], at: usize, totals: &[u32]) -> usize {
    let Some((first, others)) = totals.split_first() else {
        return at;
    };
    let mut o = put_number(text, at, u64::from(*first));
    for v in others {
        o = put_next(text, o, u64::from(*v));
    }
    o
}

// Another number for total i.
pub fn set_total(totals: &mut [u32], i: usize, v: u32) {
    if i < totals.len() {
        totals[i] = v;
    }
}
