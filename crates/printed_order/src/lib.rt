// One order of each bucket's calls, said of the bytes that the public calls write. The claims are in specs/, their proofs in proofs/; there is no code here.
#![tactic(auto)]
