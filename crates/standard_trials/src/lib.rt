// Real frames through the definitions; no code.
#![tactic(auto)]
