// The demands that are about more than one call, and document 01's worked bytes, as theorems.
//
// There is no code here. specs/ has the statements, which an auditor reads; proofs/ has their proofs.
#![tactic(auto)]
