ghost use Rattle.std.specs.Prelude.{◌≡◌, IfOk};
ghost use Rattle.std.specs.Option.{option_map};
ghost use Rattle.pb_renew_store.specs.Deeds.{made, met, wrote, spoiled, compared, synced, settled, renamed, removed};
ghost use Rattle.pb_renew_store.specs.Recorded.{deed_of};

use std::alloc::{AllocError, Global};

/// What a call of a store did, as it is kept.
#[derive(Debug, PartialEq, Eq, Drop)]
pub enum Deed {
    /// An empty file was made, where none had the name.
    Made {
        name: String,
    },
    /// None was made, since a file has the name.
    Met {
        name: String,
    },
    /// Some bytes were written behind those that the file had.
    Wrote {
        name: String,
        bytes: Vec<u8>,
    },
    /// Writing to the file failed.
    Spoiled {
        name: String,
    },
    /// The file was compared with these bytes, or with a missing file.
    Compared {
        name: String,
        bytes: Option<Vec<u8>>,
        same: bool,
    },
    /// The bytes of the file were brought to the disk.
    Synced {
        name: String,
    },
    /// The names of the folder that the file is in were brought to the disk.
    Settled {
        name: String,
    },
    /// The first name became the second one.
    Renamed {
        from: String,
        to: String,
    },
    /// The file was taken away.
    Removed {
        name: String,
    },
}

impl Deed {
    /// An empty file was made.
    pub fn made(alloc: Global, name: &str) -> Result<Deed, AllocError>
        ensures { IfOk result (λ deed. deed_of deed ≡ made name.now) }
    {
        let name = String::from_str(alloc, name)?;
        Ok(Deed::Made { name })
    }

    /// None was made, since a file has the name.
    pub fn met(alloc: Global, name: &str) -> Result<Deed, AllocError>
        ensures { IfOk result (λ deed. deed_of deed ≡ met name.now) }
    {
        let name = String::from_str(alloc, name)?;
        Ok(Deed::Met { name })
    }

    /// Some bytes were written behind those that the file had.
    pub fn wrote(alloc: Global, name: &str, bytes: &[u8]) -> Result<Deed, AllocError>
        ensures { IfOk result (λ deed. deed_of deed ≡ wrote name.now bytes.now) }
    {
        let name = String::from_str(alloc, name)?;
        let bytes = Vec::from_slice(alloc, bytes)?;
        Ok(Deed::Wrote { name, bytes })
    }

    /// Writing to the file failed.
    pub fn spoiled(alloc: Global, name: &str) -> Result<Deed, AllocError>
        ensures { IfOk result (λ deed. deed_of deed ≡ spoiled name.now) }
    {
        let name = String::from_str(alloc, name)?;
        Ok(Deed::Spoiled { name })
    }

    /// The file was compared with these bytes, or with a missing file.
    pub fn compared(
        alloc: Global,
        name: &str,
        bytes: &Option<Vec<u8>>,
        same: bool,
    ) -> Result<Deed, AllocError>
        ensures { IfOk result (λ deed. deed_of deed ≡ compared name.now (option_map (λ b. b.items) bytes.now) same) }
    {
        let name = String::from_str(alloc, name)?;
        let bytes = copied(alloc, bytes)?;
        Ok(Deed::Compared { name, bytes, same })
    }

    /// The bytes of the file were brought to the disk.
    pub fn synced(alloc: Global, name: &str) -> Result<Deed, AllocError>
        ensures { IfOk result (λ deed. deed_of deed ≡ synced name.now) }
    {
        let name = String::from_str(alloc, name)?;
        Ok(Deed::Synced { name })
    }

    /// The names of the folder that the file is in were brought to the disk.
    pub fn settled(alloc: Global, name: &str) -> Result<Deed, AllocError>
        ensures { IfOk result (λ deed. deed_of deed ≡ settled name.now) }
    {
        let name = String::from_str(alloc, name)?;
        Ok(Deed::Settled { name })
    }

    /// The first name became the second one.
    pub fn renamed(alloc: Global, from: &str, to: &str) -> Result<Deed, AllocError>
        ensures { IfOk result (λ deed. deed_of deed ≡ renamed from.now to.now) }
    {
        let from = String::from_str(alloc, from)?;
        let to = String::from_str(alloc, to)?;
        Ok(Deed::Renamed { from, to })
    }

    /// The file was taken away.
    pub fn removed(alloc: Global, name: &str) -> Result<Deed, AllocError>
        ensures { IfOk result (λ deed. deed_of deed ≡ removed name.now) }
    {
        let name = String::from_str(alloc, name)?;
        Ok(Deed::Removed { name })
    }
}

/// The same bytes once more, or none where there are none.
fn copied(alloc: Global, bytes: &Option<Vec<u8>>) -> Result<Option<Vec<u8>>, AllocError>
    ensures { IfOk result (λ copy. option_map (λ b. b.items) copy ≡ option_map (λ b. b.items) bytes.now) }
{
    match bytes {
        Some(bytes) => {
            let copy = Vec::from_slice(alloc, bytes)?;
            Ok(Some(copy))
        }
        None => Ok(None),
    }
}
