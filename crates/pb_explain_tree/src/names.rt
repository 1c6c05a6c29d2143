//! The names of a file in their order.

use crate::statements::is_same;
use pb_syntax::{Block, End, FileTree, IndexText, LinText, RangeText, RoleText, Statement};
use pb_text::{Name, NoMemory, Spot};
use std::alloc::Global;

/// What a name stands for.
#[derive(Clone, Copy)]
pub enum Kind {
    Constant,
    Protocol,
    Role,
    Label,
    ComputeKernel,
    ChoiceKernel,
    Loop,
    Variable,
}

/// What a name does where it stands.
#[derive(Clone, Copy)]
pub enum Duty {
    /// It declares the constant, the protocol or a role.
    Declares,
    /// It binds a loop or a variable.
    Binds,
    /// It is the role of an end.
    Seats,
    /// It stands in a lin.
    Counts,
    /// It is a label, a kernel, or the loop of a `continue`.
    Mentions,
}

/// A name where it stands.
#[derive(Clone, Copy)]
pub struct Seen {
    pub spot: Spot,
    pub kind: Kind,
    pub duty: Duty,
}

/// The names so far, and the constant's.
#[derive(Drop)]
struct List {
    constant: Name,
    seen: Vec<Seen>,
}

impl List {
    fn add(&mut self, spot: &Spot, kind: Kind, duty: Duty) -> Result<(), NoMemory> {
        self.seen.push(Seen {
            spot: *spot,
            kind,
            duty,
        })?;
        Ok(())
    }

    fn lin(&mut self, lin: &LinText) -> Result<(), NoMemory> {
        let Some(base) = &lin.base else {
            return Ok(());
        };
        let kind = if is_same(&base.name, &self.constant) {
            Kind::Constant
        } else {
            Kind::Variable
        };
        self.add(base, kind, Duty::Counts)
    }

    fn range(&mut self, range: &RangeText) -> Result<(), NoMemory> {
        self.lin(&range.low)?;
        self.lin(&range.high)
    }

    fn end(&mut self, end: &End) -> Result<(), NoMemory> {
        self.add(&end.role, Kind::Role, Duty::Seats)?;
        match &end.index {
            IndexText::Zero => Ok(()),
            IndexText::At(lin) => self.lin(lin),
            IndexText::Bind(variable, range) => {
                self.add(variable, Kind::Variable, Duty::Binds)?;
                self.range(range)
            }
        }
    }

    fn role(&mut self, role: &RoleText) -> Result<(), NoMemory> {
        self.add(&role.role, Kind::Role, Duty::Declares)?;
        match &role.range {
            Some(range) => self.range(range),
            None => Ok(()),
        }
    }

    fn label(&mut self, label: &Spot) -> Result<(), NoMemory> {
        self.add(label, Kind::Label, Duty::Mentions)
    }
}

#[cycle(names)]
fn add_in(block: &Block, list: &mut List) -> Result<(), NoMemory> {
    for statement in &block.list {
        add_at(statement, list)?;
    }
    Ok(())
}

#[cycle(names)]
fn add_among(branches: &[Block], list: &mut List) -> Result<(), NoMemory> {
    for branch in branches {
        add_in(branch, list)?;
    }
    Ok(())
}

#[cycle(names)]
fn add_at(statement: &Statement, list: &mut List) -> Result<(), NoMemory> {
    match statement {
        Statement::Message {
            label,
            from,
            to,
            ..
        } => {
            list.label(label)?;
            list.end(from)?;
            list.end(to)
        }
        Statement::Foreach {
            var,
            range,
            items,
            ..
        } => {
            list.add(var, Kind::Variable, Duty::Binds)?;
            list.range(range)?;
            add_in(items, list)
        }
        Statement::Rec { name, body, .. } => {
            list.add(name, Kind::Loop, Duty::Binds)?;
            add_in(body, list)
        }
        Statement::Continue { name, .. } => list.add(name, Kind::Loop, Duty::Mentions),
        Statement::Choice {
            kernel,
            at,
            branches,
            ..
        } => {
            list.add(kernel, Kind::ChoiceKernel, Duty::Mentions)?;
            list.end(at)?;
            add_among(branches, list)
        }
        Statement::Compute { kernel, at, .. } => {
            list.add(kernel, Kind::ComputeKernel, Duty::Mentions)?;
            list.end(at)
        }
        Statement::Barrier { .. } => Ok(()),
        Statement::Broadcast { label, from, .. } => {
            list.label(label)?;
            list.end(from)
        }
        Statement::Reduce { label, to, .. } => {
            list.label(label)?;
            list.end(to)
        }
        Statement::Allreduce { label, .. } => list.label(label),
    }
}

/// All names of the file, in its order.
pub fn names_of(alloc: Global, file: &FileTree) -> Result<Vec<Seen>, NoMemory> {
    let mut list = List {
        constant: file.constant.name,
        seen: Vec::new(alloc),
    };
    list.add(&file.constant, Kind::Constant, Duty::Declares)?;
    list.add(&file.protocol, Kind::Protocol, Duty::Declares)?;
    for role in &file.roles {
        list.role(role)?;
    }
    add_in(&file.body, &mut list)?;
    Ok(list.seen)
}
