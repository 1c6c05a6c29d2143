ghost use Rattle.pb_compile_laws.specs.Laws.{FileHasFewMessages, FileIsProper, FileIsSmall, FileIsTabled};

/// The core of an accepted file has a role, a foreach holds messages and computes, a continue stands within its loop, and
/// what is followed can end.
pub fn file_is_proper()
    ensures { FileIsProper }
{}

/// The core of a file within the limits has 48,000 statements of text at most, and 64 braces at most are open in it.
pub fn file_is_small()
    ensures { FileIsSmall }
{}

/// In the core of a file within the limits 4,000 messages at most are written.
pub fn file_has_few_messages()
    ensures { FileHasFewMessages }
{}

/// The core of an accepted file has tables as a text wants them: names that are no keywords and none twice, payloads and
/// kernels that go with what is done, roles with an index for every N, and a size that tells N.
pub fn file_is_tabled()
    ensures { FileIsTabled }
{}
