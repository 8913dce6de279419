#![tactic(auto)]

// Nothing runs here. The crate says what the calls promise (specs/), and proves it of their definitions (proofs/).
