// What laying out a set promises: its rings end to end in a lent output, as `sight` takes them. No function: the call is `sets::lay_out`.

#![tactic(auto)]
