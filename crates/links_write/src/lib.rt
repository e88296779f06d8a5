// The writing of COMPRESSED_UDP and COMPRESSED_RTP: for each layout of `links`, how many bytes it has and the putting of them.
//
// A put stores a layout's bytes in an output from a place on and answers the place past them; the caller sees to the room and
// copies the rest of the packet behind them. What is sent is decided above.
// Read `cu::put_cu` first, and `specs/Size.antt` for the lengths.
#![tactic(auto)]

pub mod cr;
pub mod cu;
pub mod delta;
pub mod head;
