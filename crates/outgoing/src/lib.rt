// What goes out on a context: the step that a packet makes there, and the link packet that the step becomes.
//
// The rules of a step are in `context`, their code in `compress`, the bytes of each layout in `links_write` and `refresh`; here one
// is chosen by
// the context's status and by the step's kind. The rest of the packet, the table and the output are the business of `compressor`.
// Read `specs/Outgoing.antt` first.
#![tactic(auto)]

pub mod link;
pub mod step;
