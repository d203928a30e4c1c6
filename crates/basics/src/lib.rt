// In specs/ the numbers of the machine, quoted text as bytes and tests of lists; in proofs/ case analysis on tests, laws of differences
// and of lists. There is no code here: what the others share is the library's.
#![tactic(auto)]
