ghost use Rattle.std.specs.Prelude.{◌≡◌, IfOk};
ghost use Rattle.pb_kernels.specs.Names.{HasNames};

use crate::{KName, NoMemory};
use indexmap::IndexSet;
use std::alloc::Global;
use std::marker::Model;

/// The functions of a text in printed order.
#[derive(Drop)]
pub struct Functions {
    list: Vec<KName>,
    names: IndexSet<KName>,
}

impl Model for Functions {
    ghost use Rattle.std.specs.Prelude.{List};
    ghost use Rattle.pb_ctree.specs.declared.kernel.KName.{KName};
    ghost use Rattle.pb_kernels.specs.Names.{HasNames};

    ghost Value = { List KName };

    ghost view = { λ f. f.list.items };

    ghost invariant = { λ f. HasNames f.list.items f.names.keys };
}

impl Functions {
    ghost use Rattle.std.specs.Prelude.{◌≡◌};
    ghost use Rattle.std.specs.List.{list_any};
    ghost use Rattle.pb_kernels.specs.Names.{same_name};

    /// The functions of a list, in its order.
    pub fn of(alloc: Global, list: Vec<KName>) -> Result<Functions, NoMemory>
        ensures { IfOk result (λ functions. functions ≡ list.items) }
    {
        let names = names(alloc, &list)?;
        Ok(Functions { list, names })
    }

    /// The functions in order. Takes no memory.
    pub fn list(&self) -> &[KName]
        ensures { result.now ≡ self.now }
    {
        &self.list
    }

    /// True where there is a function with this name.
    pub fn has(&self, name: &KName) -> bool
        ensures { result ≡ list_any (λ f. same_name name.now f) self.now }
    {
        self.names.contains(name)
    }
}

fn names(alloc: Global, list: &[KName]) -> Result<IndexSet<KName>, NoMemory>
    ensures { IfOk result (λ names. HasNames list.now names.keys) }
{
    let mut names = IndexSet::new(alloc);
    for name in list {
        names.insert(*name)?;
    }
    Ok(names)
}
