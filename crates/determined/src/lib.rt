#![tactic(auto)]

// Nothing runs here. specs/ says of the contracts of the public functions that each determines what a call does; proofs/ proves it.
