// Nothing to run: the plan file byte by byte and its table of forms stand in specs/, and that reading gives exactly these in proofs/.
#![tactic(auto)]
