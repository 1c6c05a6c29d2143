//! Reads names and ranks.

ghost use Rattle.std.specs.Prelude.{◌≡◌, ◌≤◌, length};
ghost use Rattle.std.specs.List.{prefix_len};
ghost use Rattle.pb_cread_lines.specs.Guess.{is_inside, find_in, name_at, peer_at};
ghost use Rattle.pb_cread_lines.specs.Parts.{GivesTo};

use crate::cursor::{Cursor, Stop};
use crate::tables::Tables;
use pb_ctree::{Name, Peer};
use pb_text::Names;

fn name_len(bytes: &[u8]) -> usize
    ensures count { result ≡ prefix_len is_inside bytes.now }
    ensures within { result ≤ length bytes.now }
{
    bytes.iter().take_while(|byte| **byte != b'(').count()
}

#[tactic(auto, unfolding(crate::specs::Guess::find_in))]
fn find_in(names: &Names, word: &[u8]) -> Option<u32>
    ensures { result ≡ find_in names.now word.now }
{
    match Name::of(word) {
        Some(name) => names.find(&name),
        None => None,
    }
}

impl<'a> Cursor<'a> {
    /// A name up to the parenthesis behind it, by its position.
    #[tactic(auto, unfolding(crate::specs::Guess::name_at))]
    pub(crate) fn name(&mut self, names: &Names) -> Result<u32, Stop>
        ensures { GivesTo result self.new.rest.now (name_at names.now self.old.rest.now) }
    {
        let len = name_len(self.rest);
        match find_in(names, &self.rest[..len]) {
            Some(place) => {
                self.rest = &self.rest[len..];
                Ok(place)
            }
            None => Err(Stop::Unread),
        }
    }

    #[tactic(auto, unfolding(crate::specs::Guess::peer_at))]
    pub(crate) fn peer(&mut self, tables: &Tables) -> Result<Peer, Stop>
        ensures { GivesTo result self.new.rest.now (peer_at tables.now self.old.rest.now) }
    {
        if !self.strip(b"r_") {
            return Err(Stop::Unread);
        }
        let role = self.name(&tables.roles)?;
        if !self.strip(b"(N, ") {
            return Err(Stop::Unread);
        }
        let at = self.lin()?;
        Ok(Peer { role, at })
    }
}
