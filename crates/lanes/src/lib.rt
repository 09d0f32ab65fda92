// That lanes never influence placement: the claims stand in specs/, their proofs in proofs/.
#![tactic(auto)]
