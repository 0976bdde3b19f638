// How long a quiet call takes (RULES, Quiet calls). The claim is in specs/, its proof in proofs/; there is no code here.
#![tactic(auto)]
