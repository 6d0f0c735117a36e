// Laws of the operations of 4.1: their values, their ranges, and where they do not saturate. No code.
#![tactic(auto)]
