// Every message in flight has a datagram. The claims are in specs/, their proofs in proofs/; there is no code here.
#![tactic(auto)]
