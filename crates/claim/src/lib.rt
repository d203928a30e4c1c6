// The claim over whole lists of events stands in specs/Claim.antt and its proof in proofs/Demand.antt. There is no code here: the
// claim speaks of the memory that the functions of `account` leave, and of what those of `questions` answer, by their contracts.
#![tactic(auto)]
