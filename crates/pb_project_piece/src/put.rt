ghost use Rattle.std.specs.Prelude.{◌≡◌, [], ◌∷◌, IfOk};
ghost use Rattle.pb_local.specs.Tree.{plain, plain_all};
ghost use Rattle.pb_project_piece.specs.Ones.{only_when};

use pb_affine::{Guard, Guards};
use pb_local::Stmt;
use pb_text::NoMemory;
use std::alloc::Global;

/// A list of one statement.
pub fn put_one(alloc: Global, stmt: Stmt) -> Result<Vec<Stmt>, NoMemory>
    ensures { IfOk result (λ v. v.items ≡ stmt ∷ []) }
{
    let mut list = Vec::new(alloc);
    list.push(stmt)?;
    Ok(list)
}

/// A list of one guard.
pub(crate) fn only(alloc: Global, guard: Guard) -> Result<Guards, NoMemory>
    ensures { IfOk result (λ g. g ≡ guard ∷ []) }
{
    let mut guards = Guards::new(alloc);
    guards.push(guard)?;
    Ok(guards)
}

/// An `If` with a first part alone. Takes no memory.
pub fn when(alloc: Global, guards: Guards, first: Vec<Stmt>) -> Stmt
    ensures { plain result ≡ only_when guards (plain_all first.items) }
{
    Stmt::If {
        guards,
        first,
        other: Vec::new(alloc),
    }
}
