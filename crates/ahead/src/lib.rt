#![tactic(auto)]

// One step of a write or a release, told from the image before it: nothing of the image is changed or copied (K4).
pub mod nth;
pub mod placements;
pub mod plain;
pub mod reclaims;
