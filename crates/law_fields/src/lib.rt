// Laws of the codewords: each codeword that the coder gives fits its field, and the decoder reads what was written. No
// code.
#![tactic(auto)]
