// An input of bytes that arrives in parts: what is kept between them, and what each of them prints. Definitions in specs/, and in
// proofs/ that every way of cutting an input gives what the whole of it gives.
#![tactic(auto)]
