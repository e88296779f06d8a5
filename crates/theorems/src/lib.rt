// What was asked for, statement by statement: the theorems of `crtp` and `endpoint` and the laws below them. No function.
//
// Each file of `proofs/` states in full what a theorem is to say, and proves it by that theorem, or by the law that it is. So
// neither another theorem nor one that says less passes for it. `tests/theorems` sees that none is left out.
#![tactic(auto)]
