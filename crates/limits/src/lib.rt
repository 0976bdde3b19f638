// What every script keeps within bounds. Definitions are in specs/, the laws in proofs/; there is no code here.
#![tactic(auto)]
