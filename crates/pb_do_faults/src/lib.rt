//! What is wrong with the calls of a file with subprotocols, each fault at its first place.
//!
//! A name stands twice, a call names no subprotocol or has not as many arguments as it has parameters, a name stands for no
//! role or no loop, or a call leads back to the subprotocol that it stands in. Without these faults there are the tables by
//! which the calls are replaced.
#![tactic(auto)]

mod arities;
mod around;
mod call_site;
mod collected;
mod cycles;
mod fault;
mod found;
mod indexed;
mod outsiders;
mod reached;
mod searching;
mod strangers;
mod table;
mod unknowns;

pub use arities::first_wrong_arity;
pub use call_site::{Body, CallSite};
pub use collected::collected_calls;
pub use cycles::first_cycle;
pub use fault::CallFault;
pub use found::checked_calls;
pub use indexed::index_of_subs;
pub use pb_do_inline::Index;
pub use strangers::first_stranger;
pub use unknowns::first_unknown;
