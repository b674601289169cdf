#![tactic(auto)]

// Demand 3, the damage theorem: what a log loses to damage, and what it keeps. There is no code
// here. The theorem is about the definitions that the contracts of append, scan and tail cite.
