//! What an output of a bay is to have so that it can be sent (`specs/Shapes.antt`): the definitions that the bay and the writers of
//! PDUs share.
//!
//! They have no code.
#![tactic(auto)]
