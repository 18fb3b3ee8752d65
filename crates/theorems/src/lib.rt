// The demands as theorems over the definitions: damage is specs/Damage.antt, the statements are proofs/Demands.antt.
#![tactic(auto)]
