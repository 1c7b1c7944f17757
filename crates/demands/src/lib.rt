// Nothing to run: the demands stand in specs/ on one page, and their proofs in proofs/.
#![tactic(auto)]
