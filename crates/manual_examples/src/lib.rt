// The worked examples of the rules, computed by the definition. There is no code here: see specs/.
#![tactic(auto)]
