#![tactic(auto)]

// The grammar of our SDP subset. There is no code here: see specs/ and proofs/.
