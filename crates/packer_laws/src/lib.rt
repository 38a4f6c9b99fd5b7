// How a packer's fields stand to the guarantee, and that each call keeps it.
#![tactic(auto)]
