// The page to sign: the demands as theorems of the calls, in proofs/Demands.antt.
#![tactic(auto)]
