// Nothing to run: what several rooms share stands in specs/, with its laws.
#![tactic(auto)]
