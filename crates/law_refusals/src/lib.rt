// Laws of the refusal numbers (house rules, 'Refusals'). No code.
#![tactic(auto)]
