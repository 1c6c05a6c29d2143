ghost use Rattle.std.specs.Prelude.{◌≡◌, IfOk, map};
ghost use Rattle.pb_local.specs.Tree.{plain, program_of};

use crate::{Guard, Guards, Local, NoMemory, Relay, Stmt, Test};
use std::alloc::Global;

impl Local {
    /// The same endpoint program once more.
    pub fn copy(&self, alloc: Global) -> Result<Local, NoMemory>
        ensures { IfOk result (λ local. program_of local ≡ program_of self.now) }
    {
        Ok(Local {
            protocol: self.protocol,
            range: self.range,
            roles: Vec::from_slice(alloc, &self.roles)?,
            labels: Vec::from_slice(alloc, &self.labels)?,
            kernels: Vec::from_slice(alloc, &self.kernels)?,
            body: copy_all(&self.body, alloc)?,
        })
    }
}

fn copy_guards(alloc: Global, guards: &[Guard]) -> Result<Guards, NoMemory>
    ensures { IfOk result (λ list. list ≡ guards.now) }
{
    let mut list = Guards::new(alloc);
    for guard in guards {
        list.push(*guard)?;
    }
    Ok(list)
}

fn copy_relay(alloc: Global, relay: &Relay) -> Result<Relay, NoMemory>
    ensures { IfOk result (λ r. r ≡ relay.now) }
{
    Ok(Relay {
        guards: copy_guards(alloc, relay.guards.list())?,
        from: relay.from,
    })
}

fn copy_relays(alloc: Global, relays: &[Relay]) -> Result<Vec<Relay>, NoMemory>
    ensures { IfOk result (λ list. list.items ≡ relays.now) }
{
    let mut list = Vec::new(alloc);
    for relay in relays {
        list.push(copy_relay(alloc, relay)?)?;
    }
    Ok(list)
}

fn copy_test(alloc: Global, test: &Test) -> Result<Test, NoMemory>
    ensures { IfOk result (λ t. t ≡ test.now) }
{
    Ok(Test {
        branch: test.branch,
        label: test.label,
        guards: copy_guards(alloc, test.guards.list())?,
    })
}

fn copy_tests(alloc: Global, tests: &[Test]) -> Result<Vec<Test>, NoMemory>
    ensures { IfOk result (λ list. list.items ≡ tests.now) }
{
    let mut list = Vec::new(alloc);
    for test in tests {
        list.push(copy_test(alloc, test)?)?;
    }
    Ok(list)
}

#[cycle(copy)]
fn copy_all(list: &[Stmt], alloc: Global) -> Result<Vec<Stmt>, NoMemory>
    ensures { IfOk result (λ copied. map plain copied.items ≡ map plain list.now) }
{
    let mut copied = Vec::new(alloc);
    for stmt in list {
        copied.push(copy_stmt(stmt, alloc)?)?;
    }
    Ok(copied)
}

#[cycle(copy)]
fn copy_stmt(stmt: &Stmt, alloc: Global) -> Result<Stmt, NoMemory>
    ensures { IfOk result (λ copied. plain copied ≡ plain stmt.now) }
{
    match stmt {
        Stmt::If {
            guards,
            first,
            other,
        } => Ok(Stmt::If {
            guards: copy_guards(alloc, guards.list())?,
            first: copy_all(first, alloc)?,
            other: copy_all(other, alloc)?,
        }),
        Stmt::For { low, high, body } => Ok(Stmt::For {
            low: *low,
            high: *high,
            body: copy_all(body, alloc)?,
        }),
        Stmt::Own { off } => Ok(Stmt::Own { off: *off }),
        Stmt::Loop { id, body } => Ok(Stmt::Loop {
            id: *id,
            body: copy_all(body, alloc)?,
        }),
        Stmt::Again { id } => Ok(Stmt::Again { id: *id }),
        Stmt::Choice {
            who,
            kernel,
            relays,
            from,
            tests,
            branches,
        } => {
            let relays = copy_relays(alloc, relays)?;
            let tests = copy_tests(alloc, tests)?;
            let mut parts = Vec::new(alloc);
            for branch in branches {
                parts.push(copy_all(branch, alloc)?)?;
            }
            Ok(Stmt::Choice {
                who: *who,
                kernel: *kernel,
                relays,
                from: *from,
                tests,
                branches: parts,
            })
        }
        Stmt::Send { label, to } => Ok(Stmt::Send {
            label: *label,
            to: *to,
        }),
        Stmt::Recv { label, from } => Ok(Stmt::Recv {
            label: *label,
            from: *from,
        }),
        Stmt::Run { kernel } => Ok(Stmt::Run { kernel: *kernel }),
        Stmt::Barrier => Ok(Stmt::Barrier),
        Stmt::Broadcast { label, root } => Ok(Stmt::Broadcast {
            label: *label,
            root: *root,
        }),
        Stmt::Reduce { label, op, root } => Ok(Stmt::Reduce {
            label: *label,
            op: *op,
            root: *root,
        }),
        Stmt::Allreduce { label, op } => Ok(Stmt::Allreduce {
            label: *label,
            op: *op,
        }),
    }
}
