//! Prints a C tree with the bodies of its kernels as the one C text that they spell, and the lines around its statements
//! one by one.
#![tactic(auto)]

mod choices;
mod fixed;
mod frame;
mod print;
mod statements;
mod text;

pub use choices::push_told;
pub use fixed::{
    push_brace, push_buffers, push_end_brace, push_end_marker, push_finish, push_prelude_marker,
    push_start,
};
pub use frame::{
    push_index_is, push_kernel_head, push_kernel_marker, push_label, push_make_head,
    push_make_marker, push_n_divided, push_n_single, push_place, push_place_head, push_protocol,
    push_range, push_rank, push_role, push_role_is, push_take_head, push_take_marker,
    push_test_size,
};
pub use pb_ctree::{Bodies, CTree};
pub use pb_text::NoMemory;
pub use print::{print_c, push_places, push_seats_of, push_size_of};
pub use statements::{deeper, is_last, push_branch_open};
pub use text::{push_body, push_kernels, push_labels, push_prelude, push_roles};
