// The three demands over whole runs of calls, from the calls' contracts alone: specs/ has what a run is, proofs/ the theorems.
// It stands on `standby` and `overview`, whose contracts it is about, on the crates below them, and on `service` for how an answer's
// numbers are packed. It has no code.
#![tactic(auto)]
