// Theorems only: what is stated in specs/ is proved in proofs/.
#![tactic(auto)]
