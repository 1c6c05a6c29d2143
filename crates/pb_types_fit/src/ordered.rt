ghost use Rattle.std.specs.Prelude.{◌≡◌, ◌||◌, ◌&&◌, nat_eq};
ghost use Rattle.pb_local.specs.Tree.{plain, plain_all};
ghost use Rattle.pb_types_fit.specs.Orders.{is_order, orders, orders_all};

use pb_local::{Op, Stmt};

fn is_order(op: Op) -> bool
    ensures { result ≡ is_order op }
{
    match op {
        Op::Min | Op::Max => true,
        Op::Sum => false,
    }
}

fn either(a: bool, b: bool) -> bool
    ensures { result ≡ (a || b) }
{
    a || b
}

fn orders_here(found: u32, op: Op, label: usize) -> bool
    ensures { result ≡ (nat_eq found label && is_order op) }
{
    found as usize == label && is_order(op)
}

/// Whether the label of this number is reduced by `min` or `max` in the statements.
#[cycle(orders)]
pub fn orders(list: &[Stmt], label: usize) -> bool
    ensures { result ≡ orders_all label (plain_all list.now) }
{
    let mut found = false;
    for stmt in list {
        found = either(found, orders_at(stmt, label));
    }
    found
}

#[cycle(orders)]
fn orders_at(stmt: &Stmt, label: usize) -> bool
    ensures { result ≡ orders label (plain stmt.now) }
{
    match stmt {
        Stmt::If { first, other, .. } => either(orders(first, label), orders(other, label)),
        Stmt::For { body, .. } => orders(body, label),
        Stmt::Loop { body, .. } => orders(body, label),
        Stmt::Choice { branches, .. } => {
            let mut found = false;
            for branch in branches {
                found = either(found, orders(branch, label));
            }
            found
        }
        Stmt::Reduce {
            label: reduced,
            op,
            ..
        } => orders_here(*reduced, *op, label),
        Stmt::Allreduce { label: reduced, op } => orders_here(*reduced, *op, label),
        Stmt::Own { .. } => false,
        Stmt::Again { .. } => false,
        Stmt::Send { .. } => false,
        Stmt::Recv { .. } => false,
        Stmt::Run { .. } => false,
        Stmt::Barrier => false,
        Stmt::Broadcast { .. } => false,
    }
}
