ghost use Rattle.std.specs.Prelude.{◌≡◌, ◌++◌, [], ◌∷◌, OnOk, OnErr, List};
ghost use Rattle.std.specs.List.{All};
ghost use Rattle.pb_affine.specs.Values.{hold, IsNear, IsSmallGuard};

use crate::{Guard, NoMemory};
use smallvec::SmallVec;
use std::alloc::Global;
use std::marker::Model;

/// A list of guards, which holds of a rank where one of them does.
#[derive(Drop)]
pub struct Guards {
    items: SmallVec<Guard, 2>,
}

impl Model for Guards {
    ghost use Rattle.std.specs.Prelude.{List};
    ghost use Rattle.pb_affine.specs.declared.guard.Guard.{Guard};

    ghost Value = { List Guard };

    ghost view = { λ g. g.items.items };
}

impl Guards {
    /// The empty list. Takes no memory.
    pub fn new(alloc: Global) -> Guards
        ensures { result ≡ [] }
    {
        Guards {
            items: SmallVec::new(alloc),
        }
    }

    /// The guard goes last. After `NoMemory` all is as before.
    pub fn push(&mut self, guard: Guard) -> Result<(), NoMemory>
        ensures ok { OnOk result (self.new ≡ self.old ++ guard ∷ []) }
        ensures err { OnErr result (self.new ≡ self.old) }
    {
        match self.items.push(guard) {
            Ok(()) => Ok(()),
            Err(_) => Err(NoMemory),
        }
    }

    /// The guards in order. Takes no memory.
    pub fn list(&self) -> &[Guard]
        ensures { result.now ≡ self.now }
    {
        self.items.as_slice()
    }

    /// True where some guard holds. Takes no memory.
    pub fn hold(&self, n: i64, i: i64, role: u32, index: i64) -> bool
        requires small { All IsSmallGuard self.now }
        requires n { IsNear n }
        requires i { IsNear i }
        ensures { result ≡ hold self.now n i role index }
    {
        some_holds(self.list(), n, i, role, index)
    }
}

fn some_holds(guards: &[Guard], n: i64, i: i64, role: u32, index: i64) -> bool
    requires small { All IsSmallGuard guards.now }
    requires n { IsNear n }
    requires i { IsNear i }
    ensures { result ≡ hold guards.now n i role index }
{
    for guard in guards {
        if guard.holds(n, i, role, index) {
            return true;
        }
    }
    false
}
