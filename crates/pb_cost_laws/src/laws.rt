ghost use Rattle.pb_cost_laws.specs.Laws.{StraightSends, BlockSends};

/// The least and the most that a flat protocol without loops sends are the sums over its statements: of a choice the least
/// and the most of its branches, each of which some answers take.
pub fn straight_sends()
    ensures { StraightSends }
{}

/// At each N the least and the most that a block of the core without loops sends are the sums over its statements, and for a
/// foreach over the values of its variable.
pub fn block_sends()
    ensures { BlockSends }
{}
