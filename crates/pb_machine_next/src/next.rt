ghost use Rattle.std.specs.Prelude.{◌≡◌, ◌≤◌, ◌<◌, ℕ, pos, ◌+◌, ◌+ℤ◌, List, if◌then◌else◌, length, take, None};
ghost use Rattle.pb_world.specs.Actions.{Broadcast, Reduce};
ghost use Rattle.pb_local.specs.Collectives.{operation_of};
ghost use Rattle.pb_local.specs.Tree.{Codes, Program, plain, plain_all};
ghost use Rattle.pb_local.specs.Machine.{Todo, move_from};
ghost use Rattle.pb_machine_next.specs.declared.step.Step.{Step};
ghost use Rattle.pb_machine_next.specs.declared.ahead.Go.TheVariants.{Enter, Stay};
ghost use Rattle.pb_machine_next.specs.Heights.{height, height_all, breadth, breadth_all};
ghost use Rattle.pb_machine_next.specs.Numbers.{guard_holds, some_holds};
ghost use Rattle.pb_machine_next.specs.Peers.{peer_at};
ghost use Rattle.pb_machine_next.specs.Place.{todo, looped, tests_of, tests_at};
ghost use Rattle.pb_machine_next.specs.Meaning.{IsRound};
ghost use Rattle.pb_machine_next.specs.Calls.{collective_of};
ghost use Rattle.pb_machine_next.specs.View.{goes, move_by, move_to, back_by, rank_of, begun, turned, owned, branched, chosen, asked, probed, sends, receives, enters, when_some, Knows};
ghost use Rattle.pb_machine_next.specs.Safe.{IsRoom, IsSafe, IsIn};

use crate::ahead::{Ahead, Go};
use crate::call::Call;
use crate::me::Me;
use crate::numbers::{fits, guard_holds, int32, some_holds, source, value};
use crate::peers::peer;
use crate::place::{Place, find, find_loop};
use crate::state::State;
use crate::step::Step;
use pb_ctree::{Formula, Guard, Lin, Op, Peer, Relay, Stmt, Test};

/// What a rank is asked at a choice: whose it is, by which kernel, of how many branches, and how others hear of it.
#[derive(Clone, Copy)]
struct Asked<'a> {
    who: &'a Guard,
    kernel: u32,
    branches: u32,
    relays: &'a [Relay],
    from: Peer,
    tests: &'a [Test],
}

impl State {
    /// A round with this variable, where it isn't above the high end.
    fn begin(&self, i: i32, high: Lin, round: Go, over: Go) -> Ahead
        ensures next { (b : Codes) (path : List Step) → move_by b path self.now.me self.now.i result ≡ begun self.now.me i high (goes b path round) (goes b path over) }
        ensures safe { (n h : ℕ) → IsRoom n h round → IsRoom n h over → IsSafe n h result }
    {
        let high = value(high, &self.me, i);
        if fits(high) {
            if i64::from(i) <= high {
                Ahead::Silent { i, go: round }
            } else {
                Ahead::Silent { i, go: over }
            }
        } else {
            Ahead::Undefined
        }
    }

    /// The variable becomes this number, and a round begins where it isn't above the high end.
    fn turn(&self, number: i64, high: Lin, round: Go, over: Go) -> Ahead
        ensures next { (b : Codes) (path : List Step) → move_by b path self.now.me self.now.i result ≡ turned self.now.me number high (goes b path round) (goes b path over) }
        ensures safe { (n h : ℕ) → IsRoom n h round → IsRoom n h over → IsSafe n h result }
    {
        match int32(number) {
            None => Ahead::Undefined,
            Some(i) => self.begin(i, high, round, over),
        }
    }

    /// The variable becomes one more.
    fn turn_on(&self, high: Lin, round: Go, over: Go) -> Ahead
        ensures next { (b : Codes) (path : List Step) → move_by b path self.now.me self.now.i result ≡ turned self.now.me (self.now.i +ℤ pos 1) high (goes b path round) (goes b path over) }
        ensures safe { (n h : ℕ) → IsRoom n h round → IsRoom n h over → IsSafe n h result }
    {
        self.turn(plus_one(self.i), high, round, over)
    }

    /// The variable becomes the own index plus an offset.
    fn own(&self, off: i32, go: Go) -> Ahead
        ensures next { (b : Codes) (path : List Step) → move_by b path self.now.me self.now.i result ≡ owned self.now.me (self.now.me.index +ℤ off) (goes b path go) }
        ensures safe { (n h : ℕ) → IsRoom n h go → IsSafe n h result }
    {
        match int32(index_plus(&self.me, off)) {
            None => Ahead::Undefined,
            Some(i) => Ahead::Silent { i, go },
        }
    }

    /// Into the first part of an If where a guard holds, and into the other part where none does.
    fn branch(&self, guards: &[Guard], depth: usize, at: usize) -> Ahead
        ensures next { (b : Codes) (path : List Step) → move_by b path self.now.me self.now.i result ≡ branched self.now.me self.now.i (λ k. goes b path (Enter depth at k)) (some_holds guards.now self.now.me self.now.i) }
        ensures safe { (n h : ℕ) → IsIn n h depth → IsSafe n h result }
    {
        match some_holds(guards, &self.me, self.i) {
            None => Ahead::Undefined,
            Some(held) => Ahead::Silent {
                i: self.i,
                go: Go::Enter {
                    depth,
                    at,
                    part: side(held),
                },
            },
        }
    }

    /// The probe of a source.
    fn probe(&self, from: Option<u32>, depth: usize, at: usize) -> Ahead
        ensures next { (b : Codes) (path : List Step) → move_by b path self.now.me self.now.i result ≡ probed self.now.me self.now.i (tests_at b (take depth path) at) (λ k. goes b path (Enter depth at k)) from }
        ensures safe { (n h : ℕ) → IsIn n h depth → IsSafe n h result }
    {
        match from {
            None => Ahead::Undefined,
            Some(from) => Ahead::Probe { from, depth, at },
        }
    }

    /// The choice of another rank, which the first message of a source tells.
    fn ask(
        &self,
        places: &[Formula],
        relays: &[Relay],
        from: Peer,
        tests: &[Test],
        depth: usize,
        at: usize,
    ) -> Ahead
        ensures next { (b : Codes) (path : List Step) → tests_at b (take depth path) at ≡ tests.now → move_by b path self.now.me self.now.i result ≡ asked places.now self.now.me self.now.i relays.now from tests.now (λ k. goes b path (Enter depth at k)) }
        ensures safe { (n h : ℕ) → IsIn n h depth → IsSafe n h result }
    {
        if tests.is_empty() {
            return Ahead::Undefined;
        }
        match source(relays, from, &self.me, self.i) {
            None => Ahead::Undefined,
            Some(from) => self.probe(peer(places, from, &self.me, self.i), depth, at),
        }
    }

    fn send(&self, label: u32, to: Option<u32>, go: Go) -> Ahead
        ensures next { (b : Codes) (path : List Step) → move_by b path self.now.me self.now.i result ≡ sends self.now.me self.now.i label (goes b path go) to }
        ensures safe { (n h : ℕ) → IsRoom n h go → IsSafe n h result }
    {
        match to {
            None => Ahead::Undefined,
            Some(to) => Ahead::Send { to, label, go },
        }
    }

    fn receive(&self, label: u32, from: Option<u32>, go: Go) -> Ahead
        ensures next { (b : Codes) (path : List Step) → move_by b path self.now.me self.now.i result ≡ receives self.now.me self.now.i label (goes b path go) from }
        ensures safe { (n h : ℕ) → IsRoom n h go → IsSafe n h result }
    {
        match from {
            None => Ahead::Undefined,
            Some(from) => Ahead::Recv { from, label, go },
        }
    }

    fn broadcast(&self, label: u32, root: Option<u32>, go: Go) -> Ahead
        ensures next { (b : Codes) (path : List Step) → move_by b path self.now.me self.now.i result ≡ when_some root (λ q. enters self.now.me self.now.i (Broadcast label q) (goes b path go)) }
        ensures safe { (n h : ℕ) → IsRoom n h go → IsSafe n h result }
    {
        match root {
            None => Ahead::Undefined,
            Some(root) => Ahead::Join {
                call: Call::Broadcast { label, root },
                go,
            },
        }
    }

    fn reduce(&self, label: u32, op: Op, root: Option<u32>, go: Go) -> Ahead
        ensures next { (b : Codes) (path : List Step) → move_by b path self.now.me self.now.i result ≡ when_some root (λ q. enters self.now.me self.now.i (Reduce label (operation_of op) q) (goes b path go)) }
        ensures safe { (n h : ℕ) → IsRoom n h go → IsSafe n h result }
    {
        match root {
            None => Ahead::Undefined,
            Some(root) => Ahead::Join {
                call: Call::Reduce { label, op, root },
                go,
            },
        }
    }

    /// What is next at a choice with so many branches.
    fn choice(&self, places: &[Formula], asked: Asked, depth: usize, at: usize) -> Ahead
        ensures next { (b : Codes) (path : List Step) → tests_at b (take depth path) at ≡ asked.entry.tests.now → move_by b path self.now.me self.now.i result ≡ chosen places.now self.now.me self.now.i asked.entry.kernel asked.entry.branches asked.entry.relays.now asked.entry.from asked.entry.tests.now (λ k. goes b path (Enter depth at k)) (guard_holds asked.entry.who.now self.now.me self.now.i) }
        ensures safe { (n h : ℕ) → IsIn n h depth → IsSafe n h result }
    {
        match guard_holds(asked.who, &self.me, self.i) {
            None => Ahead::Undefined,
            Some(held) => {
                if held {
                    Ahead::Choose {
                        kernel: asked.kernel,
                        branches: asked.branches,
                        depth,
                        at,
                    }
                } else {
                    self.ask(places, asked.relays, asked.from, asked.tests, depth, at)
                }
            }
        }
    }

    /// Looks at a statement, and keeps what is next.
    fn look_at(
        &mut self,
        body: &[Stmt],
        places: &[Formula],
        path: &[Step],
        depth: usize,
        at: usize,
        after: usize,
        stmt: &Stmt,
    )
        requires inside { depth ≤ length path.now }
        requires narrow { breadth (plain stmt.now) ≤ 64 }
        ensures next { tests_at (plain_all body.now) (take depth path.now) at ≡ tests_of (plain stmt.now) → move_by (plain_all body.now) path.now self.old.me self.old.i self.new.ahead ≡ move_to places.now self.old.me self.old.i (plain stmt.now) (λ k. goes (plain_all body.now) path.now (Enter depth at k)) (goes (plain_all body.now) path.now (Stay depth after)) (λ id. back_by (plain_all body.now) path.now (looped (plain_all body.now) (take depth path.now) id 0 None)) }
        ensures safe { (h : ℕ) → depth + height (plain stmt.now) ≤ h → IsSafe (length path.now) h self.new.ahead }
        ensures me { self.new.me ≡ self.old.me }
        ensures i { self.new.i ≡ self.old.i }
    {
        let (me, i) = (&self.me, self.i);
        let go = Go::Stay { depth, at: after };
        let part = 0;
        match stmt {
            Stmt::If { guards, .. } => self.ahead = self.branch(guards.list(), depth, at),
            Stmt::For { low, high, .. } => {
                self.ahead = self.turn(
                    value(*low, me, i),
                    *high,
                    Go::Enter { depth, at, part },
                    go,
                );
            }
            Stmt::Own { off } => self.ahead = self.own(*off, go),
            Stmt::Loop { .. } => self.ahead = Ahead::Silent {
                i,
                go: Go::Enter { depth, at, part },
            },
            Stmt::Again { id } => self.ahead = Ahead::Silent {
                i,
                go: back(body, path, depth, *id),
            },
            Stmt::Choice {
                who,
                kernel,
                relays,
                from,
                tests,
                branches,
            } => {
                let asked = Asked {
                    who,
                    kernel: *kernel,
                    branches: branches.len() as u32,
                    relays,
                    from: *from,
                    tests,
                };
                self.ahead = self.choice(places, asked, depth, at);
            }
            Stmt::Send { label, to } => self.ahead = self.send(
                *label,
                peer(places, *to, me, i),
                go,
            ),
            Stmt::Recv { label, from } => self.ahead = self.receive(
                *label,
                peer(places, *from, me, i),
                go,
            ),
            Stmt::Run { kernel } => self.ahead = Ahead::Run {
                kernel: *kernel,
                go,
            },
            Stmt::Barrier => self.ahead = Ahead::Join {
                call: Call::Barrier,
                go,
            },
            Stmt::Broadcast { label, root } => {
                self.ahead = self.broadcast(*label, peer(places, *root, me, i), go);
            }
            Stmt::Reduce { label, op, root } => {
                self.ahead = self.reduce(*label, *op, peer(places, *root, me, i), go);
            }
            Stmt::Allreduce { label, op } => self.ahead = Ahead::Join {
                call: Call::Allreduce {
                    label: *label,
                    op: *op,
                },
                go,
            },
        }
    }

    /// What is next at the end of a round.
    fn round(&self, most: usize, depth: usize, after: usize, high: Lin) -> Ahead
        requires { depth < most }
        ensures next { (p : Program) (b : Codes) (path : List Step) (t : Todo) → IsRound b path t depth after high → move_by b path self.now.me self.now.i result ≡ move_from p self.now.me.n (rank_of self.now.me self.now.i t) t }
        ensures safe { (n h : ℕ) → depth < n → IsSafe n h result }
    {
        let round = Go::Stay {
            depth: depth + 1,
            at: 0,
        };
        self.turn_on(high, round, Go::Stay { depth, at: after })
    }

    /// Looks at statement `at` of the block that a path leads to, and keeps what is next.
    pub fn look(&mut self, body: &[Stmt], places: &[Formula], path: &[Step], at: usize)
        requires narrow { breadth_all (plain_all body.now) ≤ 64 }
        ensures next { (p : Program) → Knows p places.now self.old.me → move_by (plain_all body.now) path.now self.old.me self.old.i self.new.ahead ≡ move_from p self.old.me.n (rank_of self.old.me self.old.i (todo (plain_all body.now) path.now at)) (todo (plain_all body.now) path.now at) }
        ensures safe { IsSafe (length path.now) (height_all (plain_all body.now)) self.new.ahead }
        ensures me { self.new.me ≡ self.old.me }
        ensures i { self.new.i ≡ self.old.i }
    {
        match find(body, path, at) {
            Place::Nowhere => self.ahead = Ahead::Ended,
            Place::At {
                depth,
                at,
                after,
                stmt,
            } => self.look_at(body, places, path, depth, at, after, stmt),
            Place::Round { depth, after, high } => {
                self.ahead = self.round(path.len(), depth, after, high);
            }
        }
    }
}

fn index_plus(me: &Me, off: i32) -> i64
    ensures { result ≡ me.now.index +ℤ off }
{
    me.index + i64::from(off)
}

fn plus_one(i: i32) -> i64
    ensures { result ≡ i +ℤ pos 1 }
{
    i64::from(i) + 1
}

/// Where an `Again` at this depth leads.
#[tactic(auto, using(crate::proofs::Arms::ended_at))]
fn back(body: &[Stmt], path: &[Step], depth: usize, id: u32) -> Go
    requires { depth ≤ length path.now }
    ensures leads { goes (plain_all body.now) path.now result ≡ back_by (plain_all body.now) path.now (looped (plain_all body.now) (take depth path.now) id 0 None) }
    ensures room { (h : ℕ) → IsRoom (length path.now) h result }
{
    match find_loop(body, &path[..depth], id) {
        None => Go::Stay {
            depth: 0,
            at: body.len(),
        },
        Some(depth) => Go::Stay { depth, at: 0 },
    }
}

/// The number of the part that an `If` takes.
fn side(held: bool) -> usize
    ensures { result ≡ (if held then 0 else 1) }
{
    if held { 0 } else { 1 }
}
