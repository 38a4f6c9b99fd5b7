// What a packer promises: the five calls, the plain packer and the guarantee, as definitions in specs/, and the laws that join them.
#![tactic(auto)]
