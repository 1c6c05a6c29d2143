//! Calls whose reads and writes fail, or come in pieces. Calls of the built program stand in `checks/sessions`.

mod faults;
mod session;
