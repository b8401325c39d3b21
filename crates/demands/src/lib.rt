#![tactic(auto)]

// The maintainer's three demands, each as one statement about calls of `gateway::answer` (specs/), and their proofs (proofs/). No code
// stands here.
