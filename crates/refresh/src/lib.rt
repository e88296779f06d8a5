// Full headers, which set a context anew, and the context-state packets that ask for them.
//
// `fh` is FULL_HEADER and `cs` CONTEXT_STATE: each is judged whole before anything of it is taken, then read; and each is
// written, the caller seeing to the room and copying the rest of the packet. What a context makes of them is decided above.
// Read `specs/Fh.antt` and `specs/Cs.antt` of `links` first: each layout is defined there both ways.
#![tactic(auto)]

pub mod cs;
pub mod fh;
