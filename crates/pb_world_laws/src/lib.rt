//! The law that the k-th collectives of all ranks belong together. That the k-th receive takes the k-th send is a law of
//! `pb_world`.
#![tactic(auto)]

mod laws;

pub use laws::collectives_match;
