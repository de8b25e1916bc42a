#![tactic(auto)]

// The laws of the definitions of `format`, in proofs/. No code.
