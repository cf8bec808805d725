// No functions: the theorem that a row of accepted tables has a rule, and that its writes keep the declared kinds.
#![tactic(auto)]
