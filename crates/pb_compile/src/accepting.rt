ghost use Rattle.std.specs.Prelude.{◌≡◌, ◌≤◌, true, None, OnOk, IfOk, IfErr, length};
ghost use Rattle.pb_text.specs.declared.limits.TheConstants.{MOST_TEXT_BYTES};
ghost use Rattle.pb_syntax.specs.Plain.{plain_file};
ghost use Rattle.pb_core_language.specs.FileRules.{broken};
ghost use Rattle.pb_core_language.specs.Meaning.{meaning};
ghost use Rattle.pb_core_language.specs.Plain.{plain};
ghost use Rattle.pb_core_language.specs.Sound.{is_sound};
ghost use Rattle.pb_core_language.specs.Verdict.{KeepsAll};
ghost use Rattle.pb_core_file_rules.specs.Lowering.{IsCountable};
ghost use Rattle.pb_rules.specs.Verdict.{KeepsIndex, HasFewCases};
ghost use Rattle.pb_compile.specs.Verdict.{IsAcceptedAs, IsKept, IsVerdict, IsVerdictOfCore, IsVerdictOfTree, of_parse, of_lower, of_rule, role_at, index_at};

use crate::verdict::Verdict;
use pb_choice::check_flow;
use pb_core::{Core, lower};
use pb_core_language::{CoreRole, LowerFault};
use pb_parse::{ParseFault, parse};
use pb_rules::{At, RuleFault, check_index};
use pb_syntax::FileTree;
use pb_text::Name;
use std::alloc::Global;

/// The core of a protocol file, where the file is accepted: a text of the grammar within the limits that keeps all twelve
/// rules for every N of its range, and has at most 4,096 breakpoints. Else the verdict: the first fault of the bytes, or the
/// first rule that is broken. The bytes are at most 67,108,864.
#[tactic(auto, using(crate::proofs::Told::of_text, crate::proofs::Told::of_trees, crate::proofs::Told::countable, crate::proofs::Told::sound))]
pub fn accept(alloc: Global, bytes: &[u8]) -> Result<Core, Verdict>
    requires { length bytes.now ≤ MOST_TEXT_BYTES }
    ensures accepted { IfOk result (λ core. IsAcceptedAs bytes.now (plain core)) }
    ensures verdict { IfErr result (IsVerdict bytes.now) }
{
    match parse(alloc, bytes) {
        Ok(file) => accept_tree(alloc, &file),
        Err(fault) => Err(of_parse(fault)),
    }
}

/// The core of a tree, where the tree is accepted.
#[tactic(auto, using(crate::proofs::Told::lowered, crate::proofs::Told::decided, crate::proofs::Told::kept))]
fn accept_tree(alloc: Global, file: &FileTree) -> Result<Core, Verdict>
    requires countable { IsCountable (plain_file file.now) }
    requires sound { broken (plain_file file.now) ≡ None → is_sound (meaning (plain_file file.now)) ≡ true }
    ensures kept { OnOk result (IsKept (plain_file file.now)) }
    ensures means { IfOk result (λ core. plain core ≡ meaning (plain_file file.now)) }
    ensures verdict { IfErr result (IsVerdictOfTree (plain_file file.now)) }
{
    match lower(alloc, file) {
        Ok(core) => match check(alloc, &core) {
            Ok(()) => Ok(core),
            Err(verdict) => Err(verdict),
        },
        Err(fault) => Err(of_lower(fault)),
    }
}

/// Whether a core keeps the rules 6 to 12, and has few breakpoints.
#[tactic(auto, using(crate::proofs::Told::index_told))]
fn check(alloc: Global, core: &Core) -> Result<(), Verdict>
    requires { is_sound (plain core.now) ≡ true }
    ensures keeps { OnOk result (KeepsAll (plain core.now)) }
    ensures few { OnOk result (HasFewCases (plain core.now)) }
    ensures verdict { IfErr result (IsVerdictOfCore (plain core.now)) }
{
    match check_index(alloc, core) {
        Ok(()) => check_rest(alloc, core),
        Err(fault) => Err(of_rule(&core.roles, fault)),
    }
}

/// Whether a core that keeps the rules 6 to 8 keeps the rules 9 to 12.
#[tactic(auto, using(crate::proofs::Told::flow_told))]
fn check_rest(alloc: Global, core: &Core) -> Result<(), Verdict>
    requires sound { is_sound (plain core.now) ≡ true }
    requires index { KeepsIndex (plain core.now) }
    requires few { HasFewCases (plain core.now) }
    ensures keeps { OnOk result (KeepsAll (plain core.now)) }
    ensures few { OnOk result (HasFewCases (plain core.now)) }
    ensures verdict { IfErr result (IsVerdictOfCore (plain core.now)) }
{
    match check_flow(alloc, core) {
        Ok(()) => Ok(()),
        Err(fault) => Err(of_rule(&core.roles, fault)),
    }
}

/// The verdict for a fault of the parser.
fn of_parse(fault: ParseFault) -> Verdict
    ensures { result ≡ of_parse fault }
{
    match fault {
        ParseFault::Lex(error) => Verdict::Lex(error),
        ParseFault::Unexpected(place) => Verdict::Unexpected(place),
        ParseFault::TooDeep(place) => Verdict::TooDeep(place),
        ParseFault::TooMany(quantity, place) => Verdict::TooMany(quantity, place),
        ParseFault::NoMemory => Verdict::NoMemory,
    }
}

/// The verdict for a broken rule from 1 to 5.
fn of_lower(fault: LowerFault) -> Verdict
    ensures { result ≡ of_lower fault }
{
    match fault {
        LowerFault::Broken { rule, place } => Verdict::Broken {
            rule,
            place,
            n: None,
            role: None,
            index: None,
        },
        LowerFault::NoMemory => Verdict::NoMemory,
    }
}

/// The verdict for a broken rule from 6 to 12. A rank is told with the name of its role.
fn of_rule(roles: &[CoreRole], fault: RuleFault) -> Verdict
    ensures { result ≡ of_rule roles.now fault }
{
    match fault {
        RuleFault::Broken { rule, place, n, at } => Verdict::Broken {
            rule,
            place,
            n: Some(n),
            role: role_at(roles, at),
            index: index_at(at),
        },
        RuleFault::TooManyCases => Verdict::TooManyCases,
        RuleFault::NoMemory => Verdict::NoMemory,
    }
}

/// The name of a rank's role.
fn role_at(roles: &[CoreRole], at: Option<At>) -> Option<Name>
    ensures { result ≡ role_at roles.now at }
{
    let at = at?;
    let role = roles.get(at.role as usize)?;
    Some(role.name)
}

/// A rank's index.
fn index_at(at: Option<At>) -> Option<i64>
    ensures { result ≡ index_at at }
{
    let at = at?;
    Some(at.index)
}
