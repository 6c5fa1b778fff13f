//! The laws of the transactions over their definitions alone: what they say stands in `specs/`, how they are proved in
//! `proofs/`. No code is spoken of here.
//!
//! - `Keeping`: a step keeps a database sound (`step_keeps`).
//! - `Framing`: a step depends on no rows but those that its request reads, and changes none but those that it writes
//!   (`step_frames`).
//! - `Framed`: so the transactions are a machine of which the theory of levels speaks (`framed`).
//!
//! They are lemmas that other crates import: the contracts of `transactions::laws` cite them. They stand apart from the
//! code, so that a change of it, or a wrong body of it that the gate tries, doesn't prove them anew.
#![tactic(auto)]
