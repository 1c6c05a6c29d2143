//! Prints the lines of a C text's statements, one by one, and their small parts. Each call appends to a text, and a line
//! takes its depth, which is the number of open braces.
#![tactic(auto)]

mod lines;
mod small;

pub use lines::{
    push_calls, push_chooses, push_else_if, push_else_pick, push_else_test_line, push_for,
    push_goto, push_if, push_loop, push_makes, push_mpi_allreduce, push_mpi_bcast, push_mpi_recv,
    push_mpi_reduce, push_mpi_send, push_own, push_pick, push_picks, push_probe, push_root_makes,
    push_root_takes, push_takes, push_takes_sent, push_test_line, push_word,
};
pub use small::{
    count_of, push_lin, push_offset, push_peer, push_root, received_into, sent_from, type_name,
};
