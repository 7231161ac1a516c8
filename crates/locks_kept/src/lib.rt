//! What moves keep of the locks: each hold in force is of a live session, or of one whose Close isn't synced; what the rows
//! of each table of locks are; and what the Grants say that wait. The contract
//! of each function is a law, and takes no memory.
#![tactic(auto)]

pub mod laws;
