//! The functions that a protocol's text calls.

use pb_syntax::{CoreKernel, CoreLabel, KernelKind, Payload};
use pb_text::{Name, NoMemory};
use std::alloc::Global;

/// What a function is for.
#[derive(Clone, Copy)]
pub enum Purpose {
    Compute,
    Choice,
    MakeSigned,
    MakeUnsigned,
    TakeSigned,
    TakeUnsigned,
}

impl Purpose {
    /// What its name begins with.
    pub fn front(self) -> &'static [u8] {
        match self {
            Purpose::Compute => b"k_",
            Purpose::Choice => b"c_",
            Purpose::MakeSigned | Purpose::MakeUnsigned => b"make_",
            Purpose::TakeSigned | Purpose::TakeUnsigned => b"take_",
        }
    }

    /// Its type and the beginning of its name in C.
    pub fn head(self) -> &'static str {
        match self {
            Purpose::Compute => "static void k_",
            Purpose::Choice => "static int32_t c_",
            Purpose::MakeSigned | Purpose::MakeUnsigned => "static void make_",
            Purpose::TakeSigned | Purpose::TakeUnsigned => "static void take_",
        }
    }

    /// Its parameters in C.
    pub fn parameters(self) -> &'static str {
        match self {
            Purpose::Compute | Purpose::Choice => "(int32_t N, int32_t role, int32_t index)\n",
            Purpose::MakeSigned => "(int32_t N, int32_t role, int32_t index, int32_t *v)\n",
            Purpose::MakeUnsigned => "(int32_t N, int32_t role, int32_t index, uint32_t *v)\n",
            Purpose::TakeSigned => "(int32_t N, int32_t role, int32_t index, const int32_t *v)\n",
            Purpose::TakeUnsigned =>
                "(int32_t N, int32_t role, int32_t index, const uint32_t *v)\n",
        }
    }

    /// A body that does as little as it may.
    pub fn body(self) -> &'static str {
        match self {
            Purpose::Choice => "  return 0;\n",
            Purpose::Compute
            | Purpose::MakeSigned
            | Purpose::MakeUnsigned
            | Purpose::TakeSigned
            | Purpose::TakeUnsigned => "",
        }
    }
}

/// A function.
#[derive(Clone, Copy)]
pub struct Function {
    pub purpose: Purpose,
    pub name: Name,
}

fn push(out: &mut Vec<Function>, purpose: Purpose, name: Name) -> Result<(), NoMemory> {
    out.push(Function { purpose, name })?;
    Ok(())
}

fn push_label(out: &mut Vec<Function>, label: &CoreLabel) -> Result<(), NoMemory> {
    match label.payload {
        Payload::Unit => Ok(()),
        Payload::Int32(_) => {
            push(out, Purpose::MakeSigned, label.name)?;
            push(out, Purpose::TakeSigned, label.name)
        }
        Payload::Uint32(_) => {
            push(out, Purpose::MakeUnsigned, label.name)?;
            push(out, Purpose::TakeUnsigned, label.name)
        }
    }
}

fn push_kernel(out: &mut Vec<Function>, kernel: &CoreKernel) -> Result<(), NoMemory> {
    match kernel.kind {
        KernelKind::Compute => push(out, Purpose::Compute, kernel.name),
        KernelKind::Choice => push(out, Purpose::Choice, kernel.name),
    }
}

/// The functions that have bodies in a kernel file, in the order of the text.
pub fn functions_of(
    alloc: Global,
    labels: &[CoreLabel],
    kernels: &[CoreKernel],
) -> Result<Vec<Function>, NoMemory> {
    let mut out = Vec::new(alloc);
    for label in labels {
        push_label(&mut out, label)?;
    }
    for kernel in kernels {
        push_kernel(&mut out, kernel)?;
    }
    Ok(out)
}

impl Function {
    /// Whether the word is its name in C.
    pub fn is(&self, word: &[u8]) -> bool {
        match word.strip_prefix(self.purpose.front()) {
            Some(rest) => rest == self.name.bytes(),
            None => false,
        }
    }
}
