// Lists of calls at the two ends of a link: what is sent, what arrives, what is saved and loaded, what is lost.
//
// No function: `specs/Calls.antt` states, over any two ends, that every arrival that is not lost is right, and
// `proofs/Faithful.antt` proves it of all ends that meet the laws of `proofs/Laws.antt`, one context number at a time.
// `specs/Earlier.antt` has the claim in the words of the rules, for lists without saves and loads, and `specs/Literal.antt` in a
// reading that undoes more with each load; the claim implies both.
// What a packet is, how it is compressed and what "right" means is left to the crate that names its two ends.
#![tactic(auto)]
