#![tactic(auto)]

// Nothing runs here. The crate says what a script promises of its input, records and lines (specs/), and proves it of their definitions (proofs/).
