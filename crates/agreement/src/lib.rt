// No code: what a fold session leaves, held beside the one-call folds and the next table.
#![tactic(auto)]
