// What a step from a lent reading promises, for a caller that keeps no record of a walk, and that it has one answer. It answers what a step from a record does:
// `Outcome` of `walk_spec` or `Arrival` of `walk_bracelet_spec`, or a refusal. No functions.

#![tactic(auto)]
