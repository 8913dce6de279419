#![tactic(auto)]

// Nothing runs here. The crate is the table of the figures P1 to P9, T1 to T4, S1 to S3 and E1 to E3 (specs/) and the proof of it (proofs/).
