// No code: theorems on the client's side and on both sides together. specs/ has the statements, proofs/ the proofs.
#![tactic(auto)]
