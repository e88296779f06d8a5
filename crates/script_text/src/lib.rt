// The text of call scripts: words, numbers and hex of a line, and the same written into an answer.
//
// No call is known here: `script` runs them. A parser answers that a word is none of its kind, and an absent word is an empty
// one, which no parser takes.
// Read `word::next_word` and `text::put` first.
#![tactic(auto)]

pub mod answer;
pub mod hex;
pub mod number;
pub mod packet;
pub mod room;
pub mod text;
pub mod word;
