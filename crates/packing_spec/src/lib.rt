// No code: this crate says how the packed stored form lies in bytes (specs/), with sectors packed by hand as one table.

#![tactic(auto)]
