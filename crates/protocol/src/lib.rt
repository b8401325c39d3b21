#![tactic(auto)]

// The types that crate megaco declares and the others share, passed on from one file of specs/: there is no code here.
