ghost use Rattle.std.specs.Prelude.{◌≡◌, ℕ, List, true, false, IfErr, IfOk, MatchOption, map, []};
ghost use Rattle.pb_local.specs.Tree.{Program, plain, program_of};
ghost use Rattle.pb_cread_frame.specs.Reading.{Read, same_line};
ghost use Rattle.pb_cread_frame.specs.Rows.{bare, is_line};
ghost use Rattle.pb_cread_lines.specs.Head.{AreTables, HasHead};
ghost use Rattle.pb_cread_lines.specs.Items.{item_of};
ghost use Rattle.pb_cread_lines.specs.Reading.{IsLine, IsOnlyLine};
ghost use Rattle.pb_cread_statements.specs.Reading.{State, nothing_read};
ghost use Rattle.pb_cread_statements.specs.Views.{state_of};
ghost use Rattle.pb_cread.specs.Faults.{IsFault};
ghost use Rattle.pb_cread.specs.Rows.{IsFirst};
ghost use Rattle.pb_text.specs.Places.{one_more};
ghost use Rattle.pb_cread.specs.Reached.{Does, FailsFrom, GoesBy, GoesFrom, InEnd, InMain, IsBehind, Judged, finalize, last_texts};

use crate::ending::is_finalize;
use crate::fault::TextFault;
use crate::lines::Lines;
use pb_cread_lines::{ReadLine, Tables, read_line};
use pb_cread_statements::Reader;
use pb_ctree::{Local, NoMemory, Stmt};
use pb_text::Place;
use std::alloc::Global;

/// What a line of main's statements does.
#[derive(Clone, Copy)]
pub enum Step {
    /// It goes on.
    On,
    /// It may not stand there.
    Stops,
    /// It goes on, and opens a brace too many.
    Deepens,
    /// It goes on, and begins a statement too many.
    Exceeds,
}

/// A line without its line feed.
#[tactic(auto, using(crate::proofs::Feeds::bare_is, crate::proofs::Feeds::not_empty))]
fn bare(line: &[u8]) -> &[u8]
    requires { is_line line.now ≡ true }
    ensures { result.now ≡ bare line.now }
{
    &line[..line.len() - 1]
}

/// Takes what was read of a line.
#[tactic(auto, using(crate::proofs::Deciding::judged))]
fn take_read(
    alloc: Global,
    local: &Local,
    reader: &mut Reader,
    read: ReadLine,
) -> Result<bool, NoMemory>
    ensures { IfOk result (λ went. (line : List ℕ) → IsLine (program_of local.now) line read.depth (item_of read.item) → IsOnlyLine (program_of local.now) line read.depth (item_of read.item) → HasHead (program_of local.now) → Judged went (program_of local.now) (state_of reader.old) line (state_of reader.new)) }
{
    let item = reader.relabelled(local, read.item);
    reader.take(alloc, local, read.depth, item)
}

/// Takes a line of main's statements, without its line feed. False where it may not stand there.
#[tactic(auto, using(crate::proofs::Deciding::none_judged))]
fn take_line(
    alloc: Global,
    local: &Local,
    tables: &Tables,
    scratch: &mut Vec<u8>,
    reader: &mut Reader,
    line: &[u8],
) -> Result<bool, NoMemory>
    requires tables { AreTables tables.now (program_of local.now) }
    requires head { HasHead (program_of local.now) }
    ensures { IfOk result (λ went. Judged went (program_of local.now) (state_of reader.old) line.now (state_of reader.new)) }
{
    match read_line(alloc, local, tables, line, scratch)? {
        None => Ok(false),
        Some(read) => take_read(alloc, local, reader, read),
    }
}

/// Whether a limit is passed behind a line that goes on.
fn limit(reader: &Reader) -> Step
    ensures { (p : Program) (s : State) (line : List ℕ) → GoesBy p s line (state_of reader.now) → Does result p s line (state_of reader.now) }
{
    if reader.open() > 256 {
        return Step::Deepens;
    }
    if reader.statements() > 50_000 {
        return Step::Exceeds;
    }
    Step::On
}

/// Takes a line, with its line feed.
fn go_on(
    alloc: Global,
    local: &Local,
    tables: &Tables,
    scratch: &mut Vec<u8>,
    reader: &mut Reader,
    line: &[u8],
) -> Result<Step, NoMemory>
    requires tables { AreTables tables.now (program_of local.now) }
    requires head { HasHead (program_of local.now) }
    requires line { is_line line.now ≡ true }
    ensures { IfOk result (λ step. Does step (program_of local.now) (state_of reader.old) (bare line.now) (state_of reader.new)) }
{
    if take_line(alloc, local, tables, scratch, reader, bare(line))? {
        Ok(limit(reader))
    } else {
        Ok(Step::Stops)
    }
}

/// The fault at a line's place, where it doesn't go on within the limits.
fn fault_of(step: Step, place: Place) -> Option<TextFault>
    ensures { (text rest : List ℕ) (n : ℕ) (r : Read) (p : Program) (s u : State) (line more : List ℕ) → InMain text rest n r p s → IsFirst rest line more → same_line finalize line ≡ false → Does step p s (bare line) u → place.line ≡ n → place.col ≡ 1 → MatchOption result (InMain text more (one_more n) r p u) (IsFault text) }
{
    match step {
        Step::On => None,
        Step::Stops => Some(TextFault::Unexpected(place)),
        Step::Deepens => Some(TextFault::TooDeep(place)),
        Step::Exceeds => Some(TextFault::TooMany(place)),
    }
}

/// Takes a line, with its line feed, that stands at this place.
fn take_next(
    alloc: Global,
    local: &Local,
    tables: &Tables,
    scratch: &mut Vec<u8>,
    reader: &mut Reader,
    line: &[u8],
    place: Place,
) -> Result<(), TextFault>
    requires tables { AreTables tables.now (program_of local.now) }
    requires head { HasHead (program_of local.now) }
    requires line { is_line line.now ≡ true }
    ensures read { IfOk result (λ _. GoesFrom (program_of local.now) (state_of reader.old) line.now place (state_of reader.new)) }
    ensures fault { IfErr result (λ e. FailsFrom (program_of local.now) (state_of reader.old) line.now place e) }
{
    match go_on(alloc, local, tables, scratch, reader, line) {
        Err(NoMemory) => Err(TextFault::NoMemory),
        Ok(step) => match fault_of(step, place) {
            Some(fault) => Err(fault),
            None => Ok(()),
        },
    }
}

/// Reads main's statements up to the line behind them, of which it gives the place.
#[tactic(auto, using(crate::proofs::Feeds::shorter))]
fn read_lines(
    alloc: Global,
    local: &Local,
    tables: &Tables,
    scratch: &mut Vec<u8>,
    reader: &mut Reader,
    lines: &mut Lines,
) -> Result<Place, TextFault>
    requires tables { AreTables tables.now (program_of local.now) }
    requires head { HasHead (program_of local.now) }
    ensures read { IfOk result (λ place. (text : List ℕ) (r : Read) → InMain text lines.old.rest.now lines.old.line r (program_of local.now) (state_of reader.old) → IsBehind text lines.new.rest.now lines.new.line r (program_of local.now) (state_of reader.new) place) }
    ensures fault { IfErr result (λ e. (text : List ℕ) (r : Read) → InMain text lines.old.rest.now lines.old.line r (program_of local.now) (state_of reader.old) → IsFault text e) }
{
    let mut place = lines.place();
    while let Some(line) = lines.take() {
        if is_finalize(line) {
            return Ok(place);
        }
        match take_next(alloc, local, tables, scratch, reader, line, place) {
            Ok(()) => place = lines.place(),
            Err(fault) => return Err(fault),
        }
    }
    Err(TextFault::Unexpected(place))
}

/// The statements that were read, where the line behind them stands at this place.
fn finished(reader: Reader, place: Place) -> Result<Vec<Stmt>, TextFault>
    ensures read { IfOk result (λ v. (text rest : List ℕ) (n : ℕ) (r : Read) (p : Program) → IsBehind text rest n r p (state_of reader) place → InEnd text rest n r p (map plain v.items) [] last_texts) }
    ensures fault { IfErr result (λ e. (text rest : List ℕ) (n : ℕ) (r : Read) (p : Program) → IsBehind text rest n r p (state_of reader) place → IsFault text e) }
{
    match reader.finish() {
        Some(done) => Ok(done),
        None => Err(TextFault::Unexpected(place)),
    }
}

/// Reads main's statements, and the line behind them.
pub(crate) fn read_statements(
    alloc: Global,
    local: &Local,
    lines: &mut Lines,
) -> Result<Vec<Stmt>, TextFault>
    requires head { HasHead (program_of local.now) }
    ensures read { IfOk result (λ v. (text : List ℕ) (r : Read) → InMain text lines.old.rest.now lines.old.line r (program_of local.now) nothing_read → InEnd text lines.new.rest.now lines.new.line r (program_of local.now) (map plain v.items) [] last_texts) }
    ensures fault { IfErr result (λ e. (text : List ℕ) (r : Read) → InMain text lines.old.rest.now lines.old.line r (program_of local.now) nothing_read → IsFault text e) }
{
    let tables = Tables::of(alloc, local)?;
    read_by(alloc, local, &tables, lines)
}

/// The same by these tables.
fn read_by(
    alloc: Global,
    local: &Local,
    tables: &Tables,
    lines: &mut Lines,
) -> Result<Vec<Stmt>, TextFault>
    requires tables { AreTables tables.now (program_of local.now) }
    requires head { HasHead (program_of local.now) }
    ensures read { IfOk result (λ v. (text : List ℕ) (r : Read) → InMain text lines.old.rest.now lines.old.line r (program_of local.now) nothing_read → InEnd text lines.new.rest.now lines.new.line r (program_of local.now) (map plain v.items) [] last_texts) }
    ensures fault { IfErr result (λ e. (text : List ℕ) (r : Read) → InMain text lines.old.rest.now lines.old.line r (program_of local.now) nothing_read → IsFault text e) }
{
    let mut scratch = Vec::new(alloc);
    let mut reader = Reader::new(alloc);
    match read_lines(alloc, local, tables, &mut scratch, &mut reader, lines) {
        Ok(place) => finished(reader, place),
        Err(fault) => Err(fault),
    }
}
