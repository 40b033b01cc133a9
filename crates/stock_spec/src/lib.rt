// What the stock table promises: a byte's sectors, and the byte of its home reading. No functions.

#![tactic(auto)]
