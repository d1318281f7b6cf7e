// Laws that know nothing of USB. This crate has no code: the definitions stand in specs/, the laws in proofs/.
#![tactic(auto)]
