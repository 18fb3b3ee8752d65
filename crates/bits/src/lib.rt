// Bits of a number, the vote, linear maps and tables: definitions and laws only.
#![tactic(auto)]
