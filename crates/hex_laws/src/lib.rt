// Laws of Intel HEX texts: definitions and laws only.
#![tactic(auto)]
