/// Into block `part` of statement `at`.
#[derive(Clone, Copy)]
pub struct Step {
    pub at: usize,
    pub part: usize,
}
