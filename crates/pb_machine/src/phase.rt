use pb_machine_next::Call;

/// Whether a rank goes on, is in a collective, or read a label for which there is no test.
#[derive(Clone, Copy)]
pub enum Phase {
    Going,
    Joined(Call),
    Misled,
}
