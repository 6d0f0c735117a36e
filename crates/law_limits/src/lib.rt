// Laws over a whole frame (house rules, 'Six sums' and 'Left shifts'): six sums stay inside 32 bits, and only one left
// shift loses bits. No code.
#![tactic(auto)]
