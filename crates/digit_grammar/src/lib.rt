#![tactic(auto)]

// The grammar of a digit map, and the theorems that reading finds exactly what it derives, with its one map; see specs/ and proofs/. No code
// stands here.
