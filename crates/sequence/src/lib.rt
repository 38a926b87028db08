// Demand 3: one theorem over every sequence of calls. Definitions and proofs only, over the definitions that the calls' contracts cite.
#![tactic(auto)]
