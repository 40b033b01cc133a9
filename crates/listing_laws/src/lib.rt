// No code: theorems about crate `listing_spec`'s definitions.

#![tactic(auto)]
