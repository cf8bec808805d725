// No functions: 01's plain machine, the claim about every list of calls, and the bench lines.
#![tactic(auto)]
