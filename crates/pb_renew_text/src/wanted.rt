use pb_kernels::CTree;
use pb_typed_types::Form;

/// A text that is wanted.
#[derive(Drop)]
pub struct Wanted {
    pub tree: CTree,
    /// What its labels carry.
    pub form: Form,
}
