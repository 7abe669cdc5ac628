// Laws alone: see proofs/.
#![tactic(auto)]
