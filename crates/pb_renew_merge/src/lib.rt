//! Renewing a C text: what the bodies of an old text become in the text that is wanted.
//!
//! `renew_text` takes the old text as a kernel file. The new text has each body that still has a function whose parameters
//! allow it, and default bodies for the others; `gone` are the names of the bodies that it lacks. `left_for` puts these behind the bytes of a kernel
//! file. Both read again what they made, and each old body is looked up there.
#![tactic(auto)]

mod defaults;
mod left;
mod lost;
mod marker;
mod payloads;
mod reading;
mod renewed;

pub use defaults::default_names;
pub use left::left_for;
pub use payloads::changed_names;
pub use pb_kernels::{CTree, KName, KernelFault, KernelFile, NoMemory};
pub use pb_renew_text::{Form, Wanted};
pub use renewed::{Renewed, renew_text};
