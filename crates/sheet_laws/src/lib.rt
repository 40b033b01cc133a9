// A sheet's text is its pages one after another, and what is placed target after target, as theorems. No functions.

#![tactic(auto)]
