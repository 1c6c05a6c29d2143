use crate::{CoreKernel, CoreLabel, Lin, NRange, Name, Payload, Stmt};

/// A role with its range of indices. Its ends have no variable.
#[derive(Clone, Copy)]
pub struct Role {
    pub name: Name,
    /// The least index.
    pub low: Lin,
    /// The greatest index.
    pub high: Lin,
}

/// The endpoint program of a protocol: one list of statements for all ranks, with the tables that it speaks of.
#[derive(Drop)]
pub struct Local {
    pub protocol: Name,
    /// The numbers N that the protocol is for.
    pub range: NRange,
    /// In declared order. A role's number is its position.
    pub roles: Vec<Role>,
    /// A label's number, which is its tag, is its position.
    pub labels: Vec<CoreLabel>,
    /// A kernel's number is its position.
    pub kernels: Vec<CoreKernel>,
    pub body: Vec<Stmt>,
}

impl Local {
    ghost use Rattle.std.specs.Prelude.{◌≡◌};
    ghost use Rattle.pb_local.specs.Tables.{role_at, label_at, kernel_at};
    ghost use Rattle.pb_local.specs.Tree.{program_of};

    /// The name of a role, empty where the number is no role's.
    pub fn role_name(&self, role: u32) -> &[u8]
        ensures { result.now ≡ (role_at (program_of self.now) role).name }
    {
        match self.roles.get(role as usize) {
            Some(role) => role.name.bytes(),
            None => &[],
        }
    }

    /// The name of a label, empty where the number is no label's.
    pub fn label_name(&self, label: u32) -> &[u8]
        ensures { result.now ≡ (label_at (program_of self.now) label).name }
    {
        match self.labels.get(label as usize) {
            Some(label) => label.name.bytes(),
            None => &[],
        }
    }

    /// The payload of a label, `Unit` where the number is no label's.
    pub fn payload(&self, label: u32) -> Payload
        ensures { result ≡ (label_at (program_of self.now) label).payload }
    {
        match self.labels.get(label as usize) {
            Some(label) => label.payload,
            None => Payload::Unit,
        }
    }

    /// The name of a kernel, empty where the number is no kernel's.
    pub fn kernel_name(&self, kernel: u32) -> &[u8]
        ensures { result.now ≡ (kernel_at (program_of self.now) kernel).name }
    {
        match self.kernels.get(kernel as usize) {
            Some(kernel) => kernel.name.bytes(),
            None => &[],
        }
    }
}
