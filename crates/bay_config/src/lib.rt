//! What a bay asks of a configuration (`specs/Servable.antt`): the definitions that the bay and the law of texts share.
//!
//! They have no code.
#![tactic(auto)]
