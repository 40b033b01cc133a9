// Nothing runs here: the theorems about shades of reflectances stand in proofs/.

#![tactic(auto)]
