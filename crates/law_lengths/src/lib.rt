// Laws of lengths: each list of clause 4 has the length that the standard says, and keeps it. No code.
#![tactic(auto)]
