ghost use Rattle.pb_kernels_laws.specs.Laws.{OwnKernels};

/// A text of a tree, whatever its bodies are, is a kernel file: what is read of it are its bodies in printed order, each
/// with its name and byte for byte, and merging them into the tree gives bodies with which the tree has that text again.
/// Want of memory alone may come before either.
pub fn own_kernels()
    ensures { OwnKernels }
{}
