// What a chart job's command prints, as definitions with their laws (02, g). No code: crate `set_text_inner` places such texts.

#![tactic(auto)]
