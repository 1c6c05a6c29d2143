ghost use Rattle.std.specs.Prelude.{◌≡◌, ◌++◌, [], ◌∷◌, map, OnOk};
ghost use Rattle.pb_syntax.specs.Plain.{plain_block, plain_statement};
ghost use Rattle.pb_syntax.specs.Tree.{branches_of};
ghost use Rattle.pb_core_language.specs.FileRules.{has_words, is_unsigned, goes_with, labels_at, labels_in, labels_among};
ghost use Rattle.pb_core_file_rules.specs.Tables.{labelled, labelled_of};

use pb_syntax::{Block, NoMemory, Op, Payload, Statement};
use pb_text::Spot;

/// A label where it stands, with what goes with it.
#[derive(Clone, Copy)]
pub struct Labelled {
    pub label: Spot,
    pub payload: Payload,
    /// The payload is one that the statement may have.
    pub is_fine: bool,
}

fn has_words(payload: Payload) -> bool
    ensures { result ≡ has_words payload }
{
    match payload {
        Payload::Unit => false,
        Payload::Int32(_) | Payload::Uint32(_) => true,
    }
}

fn is_unsigned(payload: Payload) -> bool
    ensures { result ≡ is_unsigned payload }
{
    match payload {
        Payload::Unit | Payload::Int32(_) => false,
        Payload::Uint32(_) => true,
    }
}

fn goes_with(op: Op, payload: Payload) -> bool
    ensures { result ≡ goes_with op payload }
{
    match op {
        Op::Min | Op::Max => has_words(payload),
        Op::Sum => is_unsigned(payload),
    }
}

fn push_label(
    label: &Spot,
    payload: Payload,
    is_fine: bool,
    out: &mut Vec<Labelled>,
) -> Result<(), NoMemory>
    ensures { OnOk result (map labelled_of out.new.items ≡ map labelled_of out.old.items ++ (labelled label.now payload is_fine ∷ [])) }
{
    let label = *label;
    out.push(Labelled {
        label,
        payload,
        is_fine,
    })?;
    Ok(())
}

/// Adds the labels of the block, in the order of the file.
#[cycle(labels)]
pub fn add_labels_in(block: &Block, out: &mut Vec<Labelled>) -> Result<(), NoMemory>
    ensures { OnOk result (map labelled_of out.new.items ≡ map labelled_of out.old.items ++ labels_in (plain_block block.now).list) }
{
    for statement in &block.list {
        add_labels_at(statement, out)?;
    }
    Ok(())
}

#[cycle(labels)]
fn add_labels_among(branches: &[Block], out: &mut Vec<Labelled>) -> Result<(), NoMemory>
    ensures { OnOk result (map labelled_of out.new.items ≡ map labelled_of out.old.items ++ labels_among (branches_of (map plain_block branches.now))) }
{
    for branch in branches {
        add_labels_in(branch, out)?;
    }
    Ok(())
}

#[cycle(labels)]
fn add_labels_at(statement: &Statement, out: &mut Vec<Labelled>) -> Result<(), NoMemory>
    ensures { OnOk result (map labelled_of out.new.items ≡ map labelled_of out.old.items ++ labels_at (plain_statement statement.now)) }
{
    match statement {
        Statement::Message { label, payload, .. } => push_label(label, *payload, true, out),
        Statement::Broadcast { label, payload, .. } => {
            push_label(label, *payload, has_words(*payload), out)
        }
        Statement::Reduce {
            label,
            payload,
            op,
            ..
        } => push_label(label, *payload, goes_with(*op, *payload), out),
        Statement::Allreduce {
            label,
            payload,
            op,
            ..
        } => push_label(label, *payload, goes_with(*op, *payload), out),
        Statement::Foreach { items, .. } => add_labels_in(items, out),
        Statement::Rec { body, .. } => add_labels_in(body, out),
        Statement::Choice { branches, .. } => add_labels_among(branches, out),
        Statement::Continue { .. } | Statement::Compute { .. } | Statement::Barrier { .. } => {
            Ok(())
        }
    }
}
