// Part of a slice filled with zeros: what std's `fill` does, as specs/Zeros has it. No code.
#![tactic(auto)]
