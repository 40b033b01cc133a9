// Catalogues that are written from lines, a ring each: what is promised stands in specs/. No functions.

#![tactic(auto)]
