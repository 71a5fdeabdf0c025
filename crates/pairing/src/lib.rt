// A pure crate: the definitions are in specs/, their laws in proofs/.
#![tactic(auto)]
