// Optional fields of a link packet, read from left to right.
//
// A `Place` is what has become of a reading so far and where it stands; each step of `next` takes one and hands back the
// field with the place past it. A step passes over a field that is not wanted, and does nothing once a field was refused,
// so a layout is straight-line code. Which fields a packet has is the business of `links`.
// Read `specs/Next.antt` first: every step is the one definition `next` with a reader of its own.
#![tactic(auto)]

pub mod list;
pub mod next;
pub mod place;
