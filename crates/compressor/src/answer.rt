use packet::refusal::Refusal;

// What became of a call: accepted with the link type and the length of what it gave out, or refused.
//
// An opening and a request give nothing out: type 0, length 0.
pub type Outcome = Result<(u8, usize), Refusal>;
