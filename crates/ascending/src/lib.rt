// What the ascending profile has of every session, and what it has alone: all of it stands in specs/.
#![tactic(auto)]
