use packet::refusal::Refusal;

// What became of a call: accepted with the length of what it gave out, or refused.
pub type Outcome = Result<usize, Refusal>;
