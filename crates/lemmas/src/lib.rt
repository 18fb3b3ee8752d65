// Laws of the model's definitions that code and theorems cite: theorems only.
#![tactic(auto)]
