#![tactic(auto)]

// Document 01, "Trials": the lines marked [T], computed over the definitions. No code stands here:
// specs/Table.antt has the table, and proofs/Held.antt its one claim.
