// Target sets for one job, as definitions (02, g). No code: crate `sets` picks them.

#![tactic(auto)]
