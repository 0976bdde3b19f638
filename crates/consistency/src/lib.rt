// Why every script's calls have one order (RULES, One order). The statement is in specs/, its proof in proofs/; there is no code here.
#![tactic(auto)]
