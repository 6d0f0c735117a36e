// Laws on lists, most of them for the invariant of one kind of loop. No code.
#![tactic(auto)]
