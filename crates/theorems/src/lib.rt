// The user's demands as named types (specs/Demands), and a proof of each (proofs/Proved).

#![tactic(auto)]
