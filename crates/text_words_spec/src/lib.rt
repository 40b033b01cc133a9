// The pieces of a text between separators, and readings spelt by digits, as definitions with their laws. No functions.

#![tactic(auto)]
