ghost use Rattle.std.specs.Prelude.{◌≡◌, ◌<◌, ◌++◌, ◌^◌, [], length, map, Some, None, IfOk};
ghost use Rattle.pb_syntax.specs.Plain.{plain_file};
ghost use Rattle.pb_core_language.specs.Plain.{plain, plain_block};
ghost use Rattle.pb_core_language.specs.Meaning.{meaning, label_names, labels_of, kernel_names, kernels_of, roles_of, high_of};
ghost use Rattle.pb_core_file_rules.specs.Lowering.{IsCountable};

use crate::build::{Counts, build_block};
use crate::ends::role_of;
use crate::loops::Loops;
use crate::tables::Tables;
use pb_affine::NRange;
use pb_core_file_rules::{KernelTable, LabelTable};
use pb_core_language::{Core, CoreBlock, CoreRole};
use pb_syntax::{CoreKernel, CoreLabel, FileTree, High, NoMemory, RoleText};
use pb_text::Name;
use std::alloc::Global;

fn high_of(high: High) -> Option<u32>
    ensures { result ≡ high_of high }
{
    match high {
        High::Upto(n) => Some(n),
        High::Max => None,
    }
}

fn core_roles(alloc: Global, roles: &[RoleText], constant: &Name) -> Result<Vec<CoreRole>, NoMemory>
    ensures { IfOk result (λ v. v.items ≡ roles_of constant.now roles.now) }
{
    let mut list = Vec::new(alloc);
    for role in roles {
        list.push(role_of(role, constant))?;
    }
    Ok(list)
}

fn assembled(
    file: &FileTree,
    roles: Vec<CoreRole>,
    labels: Vec<CoreLabel>,
    kernels: Vec<CoreKernel>,
    body: CoreBlock,
    counts: Counts,
) -> Core
    ensures { plain result ≡ record { name = file.now.protocol.name; range = record { low = file.now.low; high = high_of file.now.high }; roles = roles.items; labels = labels.items; kernels = kernels.items; body = plain_block body; statements = counts.statements; blocks = counts.blocks } }
{
    Core {
        protocol: file.protocol.name,
        range: NRange {
            low: file.low,
            high: high_of(file.high),
        },
        roles,
        labels,
        kernels,
        body,
        statements: counts.statements,
        blocks: counts.blocks,
    }
}

/// The core of a file with these tables.
pub fn core_of(
    alloc: Global,
    file: &FileTree,
    labels: LabelTable,
    kernels: KernelTable,
) -> Result<Core, NoMemory>
    requires countable { IsCountable (plain_file file.now) }
    requires label_names { labels.table.names ≡ label_names labels.rows.items }
    requires labels { labels.rows.items ≡ labels_of (plain_file file.now) }
    requires kernel_names { kernels.table.names ≡ kernel_names kernels.rows.items }
    requires kernels { kernels.rows.items ≡ kernels_of (plain_file file.now) }
    ensures { IfOk result (λ core. plain core ≡ meaning (plain_file file.now)) }
{
    let roles = core_roles(alloc, &file.roles, &file.constant.name)?;
    let mut counts = Counts {
        statements: 0,
        blocks: 0,
    };
    let tables = Tables {
        constant: &file.constant.name,
        roles: &file.roles,
        labels: &labels.table,
        kernels: &kernels.table,
    };
    let body = build_block(alloc, &file.body, &tables, &Loops::Nothing, &mut counts)?;
    Ok(assembled(file, roles, labels.rows, kernels.rows, body, counts))
}
