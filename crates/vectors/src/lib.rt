// Recorded runs of the Rust, computed from document 01's definitions: all of them stand in specs/.
#![tactic(auto)]
