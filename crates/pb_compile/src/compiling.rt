ghost use Rattle.std.specs.Prelude.{◌≡◌, ◌≤◌, ◌+◌, ◌*◌, true, IfOk, IfErr, length};
ghost use Rattle.pb_text.specs.declared.limits.TheConstants.{MOST_TEXT_BYTES};
ghost use Rattle.pb_core_language.specs.Plain.{plain};
ghost use Rattle.pb_core_language.specs.Sound.{is_sound};
ghost use Rattle.pb_core_language.specs.Verdict.{KeepsAll};
ghost use Rattle.pb_rules.specs.Verdict.{HasFewCases};
ghost use Rattle.pb_core_endpoint.specs.Core.{IsProper};
ghost use Rattle.pb_local.specs.Tree.{program_of, size_all};
ghost use Rattle.pb_shape.specs.Sizes.{room_all, braces_all, depth_all};
ghost use Rattle.pb_shape.specs.Tabled.{IsTabled};
ghost use Rattle.pb_compile.specs.Verdict.{IsVerdict};
ghost use Rattle.pb_compile.specs.Compiled.{IsCompiled, IsProjected};

use crate::accepting::accept;
use crate::verdict::Verdict;
use pb_compile_laws::{file_is_proper, file_is_small, file_is_tabled};
use pb_core_language::Core;
use pb_ctree::{CTree, emit};
use pb_local::NoMemory;
use pb_project::project;
use pb_shape_ranks::text_ranks;
use pb_shape_reached::text_is_reached;
use std::alloc::Global;

/// An accepted protocol with its C tree.
#[derive(Drop)]
pub struct Compiled {
    /// The meaning of the file.
    pub core: Core,
    /// The tree of its projection.
    pub tree: CTree,
}

/// Compiles a protocol file: the verdict where it isn't accepted, and else its core and its C tree. The bytes are at most
/// 67,108,864.
pub fn compile(alloc: Global, bytes: &[u8]) -> Result<Compiled, Verdict>
    requires { length bytes.now ≤ MOST_TEXT_BYTES }
    ensures compiled { IfOk result (λ c. IsCompiled bytes.now (plain c.core) c.tree) }
    ensures verdict { IfErr result (IsVerdict bytes.now) }
{
    text_ranks();
    text_is_reached();
    file_is_proper();
    file_is_small();
    file_is_tabled();
    let core = accept(alloc, bytes)?;
    match tree_of(alloc, &core) {
        Ok(tree) => Ok(Compiled { core, tree }),
        Err(NoMemory) => Err(Verdict::NoMemory),
    }
}

/// The C tree of a protocol that keeps its rules.
fn tree_of(alloc: Global, core: &Core) -> Result<CTree, NoMemory>
    requires sound { is_sound (plain core.now) ≡ true }
    requires proper { IsProper (plain core.now) }
    requires tabled { IsTabled (plain core.now) }
    requires keeps { KeepsAll (plain core.now) }
    requires few { HasFewCases (plain core.now) }
    ensures projected { IfOk result (IsProjected (plain core.now)) }
    ensures size { IfOk result (λ tree. size_all (program_of tree.local).body ≤ room_all (plain core.now).body.block) }
    ensures braces { IfOk result (λ tree. braces_all (program_of tree.local).body ≤ (2 * depth_all (plain core.now).body.block + 1)) }
{
    let local = project(alloc, core)?;
    let tree = emit(alloc, &local)?;
    Ok(tree)
}
