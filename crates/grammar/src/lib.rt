#![tactic(auto)]

// The grammar of a message, and the theorems that reading finds exactly what it derives, with its one tree; see specs/ and proofs/. No code
// stands here.
