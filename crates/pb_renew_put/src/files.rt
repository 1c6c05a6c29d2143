/// The files that a job is about: their names, and what FILE has.
#[derive(Clone, Copy, Drop)]
pub struct Files<'a> {
    /// FILE.
    pub file: &'a str,
    /// What FILE has.
    pub source: &'a Option<Vec<u8>>,
    /// OUT.
    pub out: &'a str,
    /// OUT.left.
    pub left: &'a str,
    /// OUT.new.
    pub fresh: &'a str,
    /// OUT.left.new.
    pub spare: &'a str,
}
