//! The flat program of a book and the extension of a reading, as definitions, and demand 3 of them: this crate has no code.
#![tactic(auto)]
