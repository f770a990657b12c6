// What "exact" means stands in specs/, and its laws in proofs/: nothing here runs.
#![tactic(auto)]
