// The listing program's texts as definitions, and their laws (01, 'The listing program'). No code: crate `line` reads such texts, crate `text_lines_inner` places them.

#![tactic(auto)]
