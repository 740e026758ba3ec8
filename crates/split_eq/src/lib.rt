// Folds and values of a table at a point that is split into halves.
//
//     eq(z, y) = eq(z of the first half, high bits of y) eq(z of the others, low bits of y)
//
// The two tables stand in the work buffer: eq0 with the scale, then eq1. It holds them after every accepted call; `last_scalar`,
// `accumulate_into` and `eval_next_base` read them.
#![tactic(auto)]

pub mod fold;
pub mod scalar;
pub mod value;
