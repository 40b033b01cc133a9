// Nothing runs here: the theorems about home readings, shifts and periods stand in proofs/.

#![tactic(auto)]
