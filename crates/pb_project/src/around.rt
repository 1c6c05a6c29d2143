use pb_part_takers::Held;

/// The loops around a statement, the innermost first: who takes part in each, and their numbers in the text.
#[derive(Clone, Copy)]
pub struct Around<'a> {
    pub held: &'a [Held],
    pub numbers: &'a [u32],
}
