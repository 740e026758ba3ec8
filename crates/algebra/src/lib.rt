// Definitions and laws, no code: commutative rings, a solver of their equations, finite sums, residues, the quartic extension.
#![tactic(auto)]
