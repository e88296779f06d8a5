// Tables in the caller's memory: numbers in planes of 64 places, one plane for each field of a context.
//
// `specs/Planes.antt` says how a plane is read and what three slices that hold a table are; `proofs/PlanesLaws.antt` and
// `proofs/EveryLaws.antt` have what holds of a row that is replaced and of a walk over all places.
// The code is what the walks of both ends share.
#![tactic(auto)]

pub mod every;
pub mod flow;
pub mod lists;
pub mod numbers;
pub mod row;
