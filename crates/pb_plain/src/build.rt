ghost use Rattle.std.specs.Prelude.{◌≡◌, true, map, length, IfOk};
ghost use Rattle.pb_affine.specs.Values.{IsNear};
ghost use Rattle.pb_core_language.specs.Plain.{plain, plain_block, plain_stmt, branches_of};
ghost use Rattle.pb_core_language.specs.Ranks.{seats};
ghost use Rattle.pb_core_language.specs.Sound.{is_sound};
ghost use Rattle.pb_core_language.specs.FlatOf.{flat_stmt, flat_block, flat_branches};
ghost use Rattle.pb_core_language.specs.FlatOf as F;
ghost use Rattle.pb_core_language.specs.Flat as B;
ghost use Rattle.pb_plain.specs.Loops.{ids_of};
ghost use Rattle.pb_plain.specs.Small.{IsTurn, is_small_block, is_small_stmt};
ghost use Rattle.pb_plain.specs.View.{view, view_branches, mark_of, seat_of, origin_of, collective_of};

use crate::{
    Branches, Collective, Ends, Flat, Mark, NoMemory, Opens, Origin, Seat, Site, from_one,
    from_two, mark, rank_of, turns,
};
use pb_core_language::{Core, CoreBlock, CoreEnd, CoreKind, CoreStmt};
use std::alloc::Global;

/// The statements of the block before the rest, inside these loops and with i for the variable.
#[cycle(flat)]
pub fn flat_block(
    alloc: Global,
    block: &CoreBlock,
    opens: &Opens,
    site: &Site,
    i: &i64,
    rest: Flat,
) -> Result<Flat, NoMemory>
    requires seats { map seat_of site.now.seats.now ≡ seats site.now.roles.now site.now.n }
    requires n { IsNear site.now.n }
    requires i { IsTurn i.now }
    requires small { is_small_block (length (ids_of opens.now)) (plain_block block.now).block ≡ true }
    ensures { IfOk result (λ v. view v ≡ flat_block site.now.roles.now site.now.n (ids_of opens.now) i.now (plain_block block.now).block (view rest)) }
{
    let mut built = rest;
    let mut left = block.list.len();
    while left > 0 {
        left -= 1;
        built = flat_stmt(alloc, &block.list[left], opens, site, i, built)?;
    }
    Ok(built)
}

/// The statement before the rest.
#[cycle(flat)]
#[tactic(auto, using(crate::proofs::Smalls::small_items, crate::proofs::Smalls::small_body))]
pub fn flat_stmt(
    alloc: Global,
    stmt: &CoreStmt,
    opens: &Opens,
    site: &Site,
    i: &i64,
    rest: Flat,
) -> Result<Flat, NoMemory>
    requires seats { map seat_of site.now.seats.now ≡ seats site.now.roles.now site.now.n }
    requires n { IsNear site.now.n }
    requires i { IsTurn i.now }
    requires small { is_small_stmt (length (ids_of opens.now)) (plain_stmt stmt.now).stmt ≡ true }
    ensures { IfOk result (λ v. view v ≡ flat_stmt site.now.roles.now site.now.n (ids_of opens.now) i.now (plain_stmt stmt.now).mark (plain_stmt stmt.now).stmt (view rest)) }
{
    match &stmt.what {
        CoreKind::Message { label, from, to } => {
            let origin = from_two(stmt, from, to, site.n, *i);
            let sender = rank_of(from, site, *i);
            let receiver = rank_of(to, site, *i);
            message(alloc, origin, sender, receiver, *label, rest)
        }
        CoreKind::Foreach { low, high, items } => {
            let numbers = turns(alloc, *low, *high, site.n, *i)?;
            let mut built = rest;
            let mut left = numbers.len();
            while left > 0 {
                left -= 1;
                built = flat_block(alloc, items, opens, site, &numbers[left], built)?;
            }
            Ok(built)
        }
        CoreKind::Loop { id, body } => {
            let inside = flat_block(alloc, body, &Opens::Loop(*id, &*opens), site, i, Flat::Stop)?;
            looped(alloc, stmt, inside, rest)
        }
        CoreKind::Again { id } => Ok(Flat::Again {
            between: opens.between(*id),
        }),
        CoreKind::Choice {
            kernel,
            at,
            branches,
        } => {
            let mut built = no_branches();
            let mut left = branches.len();
            while left > 0 {
                left -= 1;
                let block = &branches[left];
                let first = flat_block(alloc, block, opens, site, i, Flat::Stop)?;
                built = branch(alloc, block, first, built)?;
            }
            let chooser = chooser_of(at, site, i);
            let origin = origin_at(stmt, at, site, i);
            choice(alloc, origin, chooser, *kernel, built, rest)
        }
        CoreKind::Run { kernel, at } => {
            let rank = rank_of(at, site, *i);
            compute(alloc, from_one(stmt, at, site.n, *i), rank, *kernel, rest)
        }
        CoreKind::Barrier => together(alloc, none(stmt), Collective::Barrier, rest),
        CoreKind::Broadcast { label, root } => {
            let joint = Collective::Broadcast {
                label: *label,
                root: rank_of(root, site, *i),
            };
            together(alloc, from_one(stmt, root, site.n, *i), joint, rest)
        }
        CoreKind::Reduce { label, op, root } => {
            let joint = Collective::Reduce {
                label: *label,
                op: *op,
                root: rank_of(root, site, *i),
            };
            together(alloc, from_one(stmt, root, site.n, *i), joint, rest)
        }
        CoreKind::Allreduce { label, op } => {
            let joint = Collective::Allreduce {
                label: *label,
                op: *op,
            };
            together(alloc, none(stmt), joint, rest)
        }
    }
}

fn no_branches() -> Branches
    ensures { view_branches result ≡ B.no_branch }
{
    Branches::None
}

fn none(stmt: &CoreStmt) -> Origin
    ensures { origin_of result ≡ F.from_none (plain_stmt stmt.now).mark }
{
    Origin {
        mark: mark(stmt),
        ends: Ends::None,
    }
}

fn message(
    alloc: Global,
    origin: Origin,
    from: u64,
    to: u64,
    label: u32,
    rest: Flat,
) -> Result<Flat, NoMemory>
    ensures { IfOk result (λ v. view v ≡ B.message (origin_of origin) from to label (view rest)) }
{
    Ok(Flat::Message {
        origin,
        from,
        to,
        label,
        rest: Box::new(alloc, rest)?,
    })
}

fn compute(
    alloc: Global,
    origin: Origin,
    at: u64,
    kernel: u32,
    rest: Flat,
) -> Result<Flat, NoMemory>
    ensures { IfOk result (λ v. view v ≡ B.compute (origin_of origin) at kernel (view rest)) }
{
    Ok(Flat::Compute {
        origin,
        at,
        kernel,
        rest: Box::new(alloc, rest)?,
    })
}

fn together(alloc: Global, origin: Origin, joint: Collective, rest: Flat) -> Result<Flat, NoMemory>
    ensures { IfOk result (λ v. view v ≡ B.together (origin_of origin) (collective_of joint) (view rest)) }
{
    Ok(Flat::Together {
        origin,
        joint,
        rest: Box::new(alloc, rest)?,
    })
}

fn looped(alloc: Global, stmt: &CoreStmt, body: Flat, rest: Flat) -> Result<Flat, NoMemory>
    ensures { IfOk result (λ v. view v ≡ B.looped (F.from_none (plain_stmt stmt.now).mark) (view body) (view rest)) }
{
    Ok(Flat::Looped {
        origin: none(stmt),
        body: Box::new(alloc, body)?,
        rest: Box::new(alloc, rest)?,
    })
}

fn branch(
    alloc: Global,
    block: &CoreBlock,
    first: Flat,
    rest: Branches,
) -> Result<Branches, NoMemory>
    ensures { IfOk result (λ v. view_branches v ≡ B.branch (plain_block block.now).mark (view first) (view_branches rest)) }
{
    Ok(Branches::Branch {
        mark: Mark {
            number: u64::from(block.number),
            place: block.place,
        },
        first: Box::new(alloc, first)?,
        rest: Box::new(alloc, rest)?,
    })
}

/// Where a statement of one end comes from.
fn origin_at(stmt: &CoreStmt, at: &CoreEnd, site: &Site, i: &i64) -> Origin
    requires n { IsNear site.now.n }
    requires i { IsTurn i.now }
    ensures { origin_of result ≡ F.from_one (plain_stmt stmt.now).mark at.now site.now.n i.now }
{
    from_one(stmt, at, site.n, *i)
}

/// The number of a chooser's rank.
fn chooser_of(at: &CoreEnd, site: &Site, i: &i64) -> u64
    requires seats { map seat_of site.now.seats.now ≡ seats site.now.roles.now site.now.n }
    requires n { IsNear site.now.n }
    requires i { IsTurn i.now }
    ensures { result ≡ F.rank_of site.now.roles.now site.now.n at.now i.now }
{
    rank_of(at, site, *i)
}

fn choice(
    alloc: Global,
    origin: Origin,
    at: u64,
    kernel: u32,
    branches: Branches,
    rest: Flat,
) -> Result<Flat, NoMemory>
    ensures { IfOk result (λ v. view v ≡ B.choice (origin_of origin) at kernel (view_branches branches) (view rest)) }
{
    Ok(Flat::Choice {
        origin,
        at,
        kernel,
        branches: Box::new(alloc, branches)?,
        rest: Box::new(alloc, rest)?,
    })
}

/// The flat protocol of a sound core at N = n, within 2^40 of zero, among these ranks.
#[tactic(auto, using(crate::proofs::Smalls::sound_small))]
pub fn flat_of(alloc: Global, core: &Core, ranks: &[Seat], n: i64) -> Result<Flat, NoMemory>
    requires sound { is_sound (plain core.now) ≡ true }
    requires n { IsNear n }
    requires seats { map seat_of ranks.now ≡ seats core.now.roles.items n }
    ensures { IfOk result (λ v. view v ≡ F.flat core.now.roles.items n (plain_block core.now.body).block) }
{
    let site = Site {
        roles: &core.roles,
        seats: ranks,
        n,
    };
    flat_block(alloc, &core.body, &Opens::Top, &site, &0, Flat::Stop)
}
