ghost use Rattle.std.specs.Prelude.{◌≡◌, ◌<◌, ◌^◌, ◌+◌};
ghost use Rattle.pb_local.specs.Tree.{plain, plain_all, size, size_all};
ghost use Rattle.pb_machine_next.specs.Heights.{height, height_all};
ghost use Rattle.pb_machine.specs.Sizes.{AreSizes};

use pb_ctree::{CTree, Stmt};

/// Counts below this are exact.
pub const MOST: u64 = 1 << 60;

/// How many statements a tree has, and how deep they stand; exact where it is below 2^60.
#[derive(Clone, Copy)]
pub struct Sizes {
    pub size: u64,
    pub height: u64,
}

impl Sizes {
    /// The sizes of a tree. Its time is linear in the tree. Takes no memory.
    pub fn of(tree: &CTree) -> Sizes
        ensures { AreSizes tree.now result }
    {
        Sizes {
            size: size(&tree.local.body),
            height: height(&tree.local.body),
        }
    }
}

fn sum(a: u64, b: u64) -> u64
    ensures { result < 2 ^ 60 → result ≡ a + b }
{
    if a < MOST && b < MOST { a + b } else { MOST }
}

fn one_more(a: u64) -> u64
    ensures exact { result < 2 ^ 60 → result ≡ a + 1 }
    ensures above { result < 2 ^ 60 → a < 2 ^ 60 }
{
    if a < MOST { a + 1 } else { MOST }
}

/// How many statements the list has, with those inside; exact where it is below `MOST`.
#[cycle(size)]
pub fn size(list: &[Stmt]) -> u64
    ensures { result < 2 ^ 60 → result ≡ size_all (plain_all list.now) }
{
    let mut count = 0;
    for stmt in list {
        count = sum(count, size_at(stmt));
    }
    count
}

#[cycle(size)]
fn size_at(stmt: &Stmt) -> u64
    ensures { result < 2 ^ 60 → result ≡ size (plain stmt.now) }
{
    match stmt {
        Stmt::If { first, other, .. } => one_more(sum(size(first), size(other))),
        Stmt::For { body, .. } => one_more(size(body)),
        Stmt::Loop { body, .. } => one_more(size(body)),
        Stmt::Choice { branches, .. } => {
            let mut count = 1;
            for branch in branches {
                count = sum(count, size(branch));
            }
            count
        }
        Stmt::Own { .. } => 1,
        Stmt::Again { .. } => 1,
        Stmt::Send { .. } => 1,
        Stmt::Recv { .. } => 1,
        Stmt::Run { .. } => 1,
        Stmt::Barrier => 1,
        Stmt::Broadcast { .. } => 1,
        Stmt::Reduce { .. } => 1,
        Stmt::Allreduce { .. } => 1,
    }
}

/// How deep blocks stand in the list's statements; exact where it is below `MOST`.
#[cycle(height)]
pub fn height(list: &[Stmt]) -> u64
    ensures { result < 2 ^ 60 → result ≡ height_all (plain_all list.now) }
{
    let mut most = 0u64;
    for stmt in list {
        most = most.max(height_at(stmt));
    }
    most
}

#[cycle(height)]
fn height_at(stmt: &Stmt) -> u64
    ensures { result < 2 ^ 60 → result ≡ height (plain stmt.now) }
{
    match stmt {
        Stmt::If { first, other, .. } => one_more(height(first).max(height(other))),
        Stmt::For { body, .. } => one_more(height(body)),
        Stmt::Loop { body, .. } => one_more(height(body)),
        Stmt::Choice { branches, .. } => {
            let mut most = 0u64;
            for branch in branches {
                most = most.max(height(branch));
            }
            one_more(most)
        }
        Stmt::Own { .. } => 0,
        Stmt::Again { .. } => 0,
        Stmt::Send { .. } => 0,
        Stmt::Recv { .. } => 0,
        Stmt::Run { .. } => 0,
        Stmt::Barrier => 0,
        Stmt::Broadcast { .. } => 0,
        Stmt::Reduce { .. } => 0,
        Stmt::Allreduce { .. } => 0,
    }
}
