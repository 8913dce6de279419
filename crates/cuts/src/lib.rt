#![tactic(auto)]

// Nothing runs here. The crate proves what an image is on the way through the steps of a call, so wherever the call is cut short (K4).
