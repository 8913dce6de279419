#![tactic(auto)]

// One step of a repair, told from the image before it: nothing of the image is changed or copied (K4). Step i of a list that others follow
// is that step, or else how far behind the list's end i lies: a `ControlFlow<Step, u32>`, of which what is behind goes on to the next list.
pub mod among;
pub mod bounds;
pub mod counts;
pub mod emptying;
pub mod parts;
pub mod repairs;
pub mod retires;
pub mod single;
