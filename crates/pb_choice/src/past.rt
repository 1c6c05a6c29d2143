use pb_part_areas::Area;
use pb_part_firsts::Entry;
use std::alloc::Global;

/// What was found first in the branches so far: the receives, those among them that tell all that the others do of who is heard from,
/// as far as that is known, and the ranks that receive from more than one rank.
#[derive(Drop)]
pub struct Past {
    pub entries: Vec<Entry>,
    pub sources: Vec<Entry>,
    pub mixed: Vec<Area>,
}
