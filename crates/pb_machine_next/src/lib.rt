//! What a rank of a printed text does next at a place of its tree, and where that leads: guards, peers, tests and paths.
#![tactic(auto)]

mod ahead;
mod call;
mod me;
mod next;
mod numbers;
mod peers;
mod place;
mod probe;
mod state;
mod step;

pub use ahead::{Ahead, Go};
pub use call::Call;
pub use me::Me;
pub use numbers::{guard_holds, some_holds, source, tested};
pub use pb_ctree::{Formula, Op, Stmt, Test};
pub use peers::peer;
pub use probe::tests_at;
pub use state::State;
pub use step::Step;
