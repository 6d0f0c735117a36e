// The standard (ETS 300 961, GSM 06.10 version 5.0.0), its clause 4, and the house rules as definitions. No code.
#![tactic(auto)]
