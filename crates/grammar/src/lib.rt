// The command language as relations (specs/), and that the rules' reader accepts exactly it (proofs/).

#![tactic(auto)]
