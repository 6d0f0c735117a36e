// The loops of clause 4, as the standard writes them, give what the definitions of the crate `standard` say. No code.
#![tactic(auto)]
