#![tactic(auto)]

// What an audit may be trusted with (specs/), and the proofs (proofs/). No code stands here.
