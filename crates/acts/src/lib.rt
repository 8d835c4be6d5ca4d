// What an entry does, as definitions, and the law that the entry of an instruction does what the instruction does.
#![tactic(auto)]
