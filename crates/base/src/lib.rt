#![tactic(auto)]

// Definitions and laws that every crate shares; see specs/.
