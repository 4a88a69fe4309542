// A long run in parts: laws only, for the loops of go and trace.
#![tactic(auto)]
