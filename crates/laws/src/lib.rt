// What holds of document 01's definitions: all of it stands in specs/.
#![tactic(auto)]
