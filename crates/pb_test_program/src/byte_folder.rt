ghost use Rattle.std.specs.Prelude.{None, false};

use pb_io::{Failed, Folder};

/// A folder that gives at most one byte a read of another one's files. It fails where that one does.
#[derive(Drop)]
pub struct ByteFolder<F: Folder + Drop> {
    folder: F,
}

impl<F: Folder + Drop> ByteFolder<F> {
    pub fn new(folder: F) -> ByteFolder<F> {
        ByteFolder { folder }
    }
}

impl<F: Folder + Drop> Folder for ByteFolder<F> {
    ghost holds = { λ _. None };

    ghost left = { λ _. None };

    ghost steady = { λ _. false };

    ghost faults = { λ slow. F.faults slow.folder };

    ghost reads = { λ _. 0 };

    ghost passed = { λ slow. F.passed slow.folder };

    fn open_file(&mut self, name: &str) -> Result<(), Failed> {
        self.folder.open_file(name)
    }

    fn read(&mut self, buf: &mut [u8]) -> Result<usize, Failed> {
        let most = buf.len().min(1);
        self.folder.read(&mut buf[..most])
    }
}
