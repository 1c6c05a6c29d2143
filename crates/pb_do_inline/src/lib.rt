//! The statements of a protocol with each call replaced by the statements of its subprotocol.
//!
//! Calls are followed by a stack and not by recursion, so a recursion never goes below 64 open braces, however deep the
//! calls. It stops at the first statement or call too many, so no more than 4,000 are ever built.
#![tactic(auto)]

mod body;
mod calls;
mod copies;
mod count;
mod counting;
mod frame;
mod halt;
mod inliner;
mod output;
mod plain;
mod renaming;
mod site;
mod subs;

pub use body::inlined_body;
pub use count::Count;
pub use halt::Halt;
pub use output::Output;
pub use site::Index;
