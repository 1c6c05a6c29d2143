ghost use Rattle.pb_kernels.specs.Format.{PlainIsProgram, ReadsTheFormat};

/// In each dialect the bytes that are read without a fault are those of a kernel file, with its list of bodies, no two of
/// one name.
pub fn reads_the_format()
    ensures { ReadsTheFormat }
{}

/// The kernel file of a plain text is read in the dialect of program texts too, and gives the same bodies.
pub fn plain_files_are_program_files()
    ensures { PlainIsProgram }
{}
