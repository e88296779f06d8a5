// One context at both ends: what each end keeps of a stream, by which rules it changes, and what ties the two ends together.
//
// There is no function here. `specs/` has the rules as definitions, `proofs/` the laws that hold between them; the code that
// equals them is in `compress` and `decompress`, the tables of contexts and the bytes are in the crates above those.
// Read `specs/Compressor.antt` and `specs/Decompressor.antt` first, then `proofs/Relation.antt`.
#![tactic(auto)]

pub mod compressor;
pub mod decompressor;
pub mod kept;
pub mod step;
