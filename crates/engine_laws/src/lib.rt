// Laws of the driving machine for those who build one: nothing here is code.
#![tactic(auto)]
