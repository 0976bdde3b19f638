// A server seen at one bucket. Definitions are in specs/, the laws in proofs/; there is no code here.
#![tactic(auto)]
