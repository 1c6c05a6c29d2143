/// What a name leads to.
#[derive(Clone, Copy, Debug, PartialEq, Eq)]
pub enum FileKind {
    /// No file has the name.
    Missing,
    /// A regular file that has no other name.
    Regular,
    /// A regular file that has other names, too.
    Shared,
    /// No regular file: a folder, a device, a pipe, or a link that leads nowhere.
    Other,
}
