// What texts mean, over the definitions of document: theorems alone (proofs/).
#![tactic(auto)]
