#![tactic(auto)]

// Theorems about the definitions of crate `megaco`: definitions and statements in specs/, proofs in proofs/. No code stands here.
