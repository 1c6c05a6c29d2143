ghost use Rattle.std.specs.Prelude.{◌≡◌, true, Some, []};
ghost use Rattle.pb_io.specs.Entries.{entries};

use crate::shelf::Shelf;
use crate::{Failed, Folder, MemFile};

/// A folder in memory that never fails: a name that isn't there is an empty file.
#[derive(Drop)]
pub struct SureFolder {
    shelf: Shelf,
}

impl SureFolder {
    ghost use Rattle.pb_io.specs.SureFolder.{sure_files, sure_left};

    /// A folder of these files. Of two files with one name the first counts. Takes no memory.
    pub fn new(files: Vec<MemFile>) -> SureFolder
        ensures files { sure_files result ≡ entries files.items }
        ensures left { sure_left result ≡ [] }
    {
        SureFolder {
            shelf: Shelf::new(files),
        }
    }
}

impl Folder for SureFolder {
    ghost use Rattle.pb_io.specs.SureFolder.{sure_files, sure_left};

    ghost holds = { λ folder. Some (sure_files folder) };

    ghost left = { λ folder. Some (sure_left folder) };

    ghost steady = { λ _. true };

    ghost faults = { λ _. 0 };

    ghost reads = { λ _. 0 };

    ghost passed = { λ folder. folder.shelf.passed };

    fn open_file(&mut self, name: &str) -> Result<(), Failed> {
        let place = self.shelf.place_of(name);
        self.shelf.open_at(place);
        Ok(())
    }

    fn read(&mut self, buf: &mut [u8]) -> Result<usize, Failed> {
        Ok(self.shelf.read(buf))
    }
}
