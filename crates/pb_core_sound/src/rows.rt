/// How many roles, labels and kernels a core has.
#[derive(Clone, Copy)]
pub struct Rows {
    pub roles: u64,
    pub labels: u64,
    pub kernels: u64,
}
