// An old catalogue, whose rings are seen from the front or from the back, and what converting it answers (02, j). The call is `converter`'s. No functions.

#![tactic(auto)]
