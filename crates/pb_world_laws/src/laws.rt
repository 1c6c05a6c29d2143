ghost use Rattle.pb_world_laws.specs.Laws.{CollectivesMatch};

/// In a sequential run the k-th collectives of all ranks are one statement: the same call, which each rank enters with its
/// words, and leaves with what the words of all give it.
pub fn collectives_match<S>()
    ensures { CollectivesMatch S }
{}
