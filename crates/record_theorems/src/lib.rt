// Demand 3 for record connections (document 02, P5), and the law of cutting handshake bytes into records, as theorems.
//
// There is no code here. specs/ has the statements, which an auditor reads; proofs/ has their proofs.
#![tactic(auto)]
