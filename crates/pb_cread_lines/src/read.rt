ghost use Rattle.std.specs.Prelude.{◌≡◌, ◌≤◌, IfOk, OnOk, IfSome, MatchOption, nat_eq, length, true};
ghost use Rattle.std.specs.List.{prefix_len};
ghost use Rattle.std.specs.Cmp.Lexicographic.{pointwise};
ghost use Rattle.pb_local.specs.Tree.{program_of};
ghost use Rattle.pb_ctree.specs.Lines.{line};
ghost use Rattle.pb_ctree.specs.Texts.{line_bytes};
ghost use Rattle.pb_cread_lines.specs.Head.{AreTables};
ghost use Rattle.pb_cread_lines.specs.Items.{item_of};
ghost use Rattle.pb_cread_lines.specs.Parts.{Gives};
ghost use Rattle.pb_cread_lines.specs.Reading.{is_space, line_at, IsLine, IsNoLine, IsOnlyLine};

use crate::cursor::{Cursor, Stop};
use crate::item::Item;
use crate::print::push_item;
use crate::tables::Tables;
use pb_ctree::{Local, NoMemory};
use std::alloc::Global;

/// A line of main's statements.
#[derive(Drop)]
pub struct ReadLine {
    /// The number of open braces.
    pub depth: u32,
    pub item: Item,
}

fn spaces(bytes: &[u8]) -> usize
    ensures count { result ≡ prefix_len is_space bytes.now }
    ensures within { result ≤ length bytes.now }
{
    bytes.iter().take_while(|byte| **byte == b' ').count()
}

/// What the bytes are read as.
#[tactic(auto, unfolding(crate::specs::Reading::line_at))]
fn guess_line(alloc: Global, tables: &Tables, bytes: &[u8]) -> Result<ReadLine, Stop>
    ensures { Gives result (line_at tables.now bytes.now) }
{
    let spaces = spaces(bytes);
    let depth = spaces / 2;
    if depth >= 4_294_967_296 {
        return Err(Stop::Unread);
    }
    let mut cursor = Cursor {
        rest: &bytes[spaces..],
    };
    let item = cursor.guess(alloc, tables)?;
    Ok(ReadLine {
        depth: depth as u32,
        item,
    })
}

/// The line as it is spelled, without its line feed.
#[tactic(auto, using(crate::proofs::Whole::popped))]
fn spell(local: &Local, scratch: &mut Vec<u8>, depth: u32, item: &Item) -> Result<(), NoMemory>
    ensures { OnOk result (scratch.new.items ≡ line_bytes (program_of local.now) (line depth (item_of item.now) true)) }
{
    scratch.clear();
    push_item(local, scratch, depth as usize, item)?;
    let _feed = scratch.pop();
    Ok(())
}

/// True where the line is spelled by these bytes.
fn is_spelled(
    local: &Local,
    scratch: &mut Vec<u8>,
    bytes: &[u8],
    depth: u32,
    item: &Item,
) -> Result<bool, NoMemory>
    ensures { IfOk result (λ same. same ≡ pointwise nat_eq (line_bytes (program_of local.now) (line depth (item_of item.now) true)) bytes.now) }
{
    spell(local, scratch, depth, item)?;
    Ok(scratch.as_slice() == bytes)
}

/// The line of main's statements that these bytes spell, without a line feed. None exactly where the bytes spell no line
/// whose depth and numbers fit their types and whose names are those of the tables. Labels with the same payload are
/// spelled alike in a broadcast and in a reduction: there it is any of them. What `scratch` holds doesn't matter.
/// It takes time and memory linear in the line.
#[tactic(auto, using(crate::proofs::Whole::is_line))]
pub fn read_line(
    alloc: Global,
    local: &Local,
    tables: &Tables,
    line: &[u8],
    scratch: &mut Vec<u8>,
) -> Result<Option<ReadLine>, NoMemory>
    requires { AreTables tables.now (program_of local.now) }
    ensures read { IfOk result (λ found. MatchOption found (IsNoLine (program_of local.now) line.now) (λ l. IsLine (program_of local.now) line.now l.depth (item_of l.item))) }
    ensures only { IfOk result (λ found. IfSome found (λ l. IsOnlyLine (program_of local.now) line.now l.depth (item_of l.item))) }
{
    match guess_line(alloc, tables, line) {
        Ok(read) => {
            if is_spelled(local, scratch, line, read.depth, &read.item)? {
                return Ok(Some(read));
            }
            Ok(None)
        }
        Err(Stop::Unread) => Ok(None),
        Err(Stop::NoMemory) => Err(NoMemory),
    }
}
