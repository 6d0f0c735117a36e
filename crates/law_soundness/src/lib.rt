// Laws of the carried states (house rules, 'Soundness'): a sound state stays sound, and from it the offset filter does
// not saturate. No code.
#![tactic(auto)]
