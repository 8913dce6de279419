#![tactic(auto)]

// How a write finds its slot: rules 1, 2 and 3.
pub mod filling;
pub mod reclaiming;
