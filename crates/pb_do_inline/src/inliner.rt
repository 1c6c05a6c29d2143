ghost use Rattle.std.specs.Prelude.{◌≤◌, [], map, IfOk};
ghost use Rattle.pb_do_syntax.specs.Calls.{calls_of, branches_of, foreach, loop, choice};
ghost use Rattle.pb_do_syntax.specs.Plain.{plain_sub, plain_statement, plain_block};
ghost use Rattle.pb_do_syntax.specs.Inlining.{Inlines, InlinesAll, InlinesBranches, block_behind};
ghost use Rattle.pb_do_inline.specs.Ends.{written, offered, site_of, Ends};
ghost use Rattle.pb_do_inline.specs.Frames.{FrameInlines, Steps, Advances, grown_by};

use crate::count::Count;
use crate::frame::Frame;
use crate::halt::Halt;
use crate::output::{Offer, Output};
use crate::plain::{again, allreduce, barrier, iteration, named_loop};
use crate::site::Site;
use crate::subs::Subs;
use pb_do_syntax::{CallBlock, CallStatement};
use pb_syntax::{End, RangeText, Spot};
use pb_text::Place;

impl Subs<'_> {
    // The statements of a list, each call replaced. `left` is how many more braces may be opened.
    #[cycle(inlines)]
    pub(crate) fn statements(
        &self,
        list: &[CallStatement],
        site: &Site,
        left: usize,
        out: &mut Output,
    ) -> Result<(), Halt>
        ensures ends { Ends result (λ _. written out.new) (InlinesAll (map plain_sub self.now.list.now) (site_of (map plain_sub self.now.list.now) site.now left) (calls_of (map plain_statement list.now)) (written out.old)) }
        ensures grows { IfOk result (λ _. out.old.count.n ≤ out.new.count.n) }
    {
        for statement in list {
            self.statement(statement, site, left, out)?;
        }
        Ok(())
    }

    #[cycle(inlines)]
    fn statement(
        &self,
        statement: &CallStatement,
        site: &Site,
        left: usize,
        out: &mut Output,
    ) -> Result<(), Halt>
        ensures ends { Ends result (λ _. written out.new) (Inlines (map plain_sub self.now.list.now) (site_of (map plain_sub self.now.list.now) site.now left) (plain_statement statement.now) (written out.old)) }
        ensures grows { IfOk result (λ _. out.old.count.n ≤ out.new.count.n) }
    {
        match self.step(statement, site, left, out)? {
            Some(frame) => self.run(frame, left, out),
            None => Ok(()),
        }
    }

    // A call that begins, with all the calls in it.
    #[cycle(inlines)]
    fn run(&self, first: Frame, left: usize, out: &mut Output) -> Result<(), Halt>
        ensures ends { Ends result (λ _. written out.new) (FrameInlines self.now.list.now left first (written out.old)) }
        ensures grows { IfOk result (λ _. out.old.count.n ≤ out.new.count.n) }
    {
        let mut frames = Vec::new(self.alloc);
        frames.push(first)?;
        while let Some(mut frame) = frames.pop() {
            if let Some(callee) = self.advance(&mut frame, left, out)? {
                frames.push(frame)?;
                frames.push(callee)?;
            }
        }
        Ok(())
    }

    // Goes on with a call, up to the next call in it.
    #[cycle(inlines)]
    fn advance(
        &self,
        frame: &mut Frame,
        left: usize,
        out: &mut Output,
    ) -> Result<Option<Frame>, Halt>
        ensures steps { Advances self.now.list.now left result frame.old frame.new (written out.old) (written out.new) }
        ensures grows { IfOk result (λ next. grown_by next out.old.count.n ≤ out.new.count.n) }
    {
        let Some(sub) = self.list.get(frame.body) else {
            return Ok(None);
        };
        for i in frame.next..sub.body.list.len() {
            if let Some(callee) = self.step(&sub.body.list[i], &frame.site, left, out)? {
                frame.next = i + 1;
                return Ok(Some(callee));
            }
        }
        Ok(None)
    }

    // One statement, or the call that it begins.
    #[cycle(inlines)]
    fn step(
        &self,
        statement: &CallStatement,
        site: &Site,
        left: usize,
        out: &mut Output,
    ) -> Result<Option<Frame>, Halt>
        ensures steps { Steps self.now.list.now left result (written out.new) (Inlines (map plain_sub self.now.list.now) (site_of (map plain_sub self.now.list.now) site.now left) (plain_statement statement.now) (written out.old)) }
        ensures grows { IfOk result (λ next. grown_by next out.old.count.n ≤ out.new.count.n) }
    {
        match statement {
            CallStatement::Do { place, sub, args } => self.enter(
                *place, sub, args, site, left, out,
            ),
            CallStatement::Foreach {
                place,
                var,
                range,
                items,
            } => self.foreach(*place, var, range, items, site, left, out),
            CallStatement::Rec { place, name, body } => {
                self.recursion(*place, name, body, site, left, out)
            }
            CallStatement::Choice {
                place,
                kernel,
                at,
                branches,
            } => self.choice(*place, kernel, at, branches, site, left, out),
            CallStatement::Message {
                label,
                payload,
                from,
                to,
            } => site.add(
                self.message(label, *payload, from, to, site),
                label.place,
                left,
                out,
            ),
            CallStatement::Continue { place, name } => {
                site.add(again(*place, name), *place, left, out)
            }
            CallStatement::Compute { place, kernel, at } => {
                site.add(self.compute(*place, kernel, at, site), *place, left, out)
            }
            CallStatement::Barrier { place } => site.add(barrier(*place), *place, left, out),
            CallStatement::Broadcast {
                place,
                label,
                payload,
                from,
            } => site.add(
                self.broadcast(*place, label, *payload, from, site),
                *place,
                left,
                out,
            ),
            CallStatement::Reduce {
                place,
                label,
                payload,
                op,
                to,
            } => site.add(
                self.reduce(*place, label, *payload, *op, to, site),
                *place,
                left,
                out,
            ),
            CallStatement::Allreduce {
                place,
                label,
                payload,
                op,
            } => site.add(allreduce(*place, label, *payload, *op), *place, left, out),
        }
    }

    #[cycle(inlines)]
    fn foreach(
        &self,
        place: Place,
        var: &Spot,
        range: &RangeText,
        items: &CallBlock,
        site: &Site,
        left: usize,
        out: &mut Output,
    ) -> Result<Option<Frame>, Halt>
        ensures steps { Steps self.now.list.now left result (written out.new) (Inlines (map plain_sub self.now.list.now) (site_of (map plain_sub self.now.list.now) site.now left) (foreach place var.now range.now (plain_block items.now).place (plain_block items.now).list) (written out.old)) }
        ensures grows { IfOk result (λ next. grown_by next out.old.count.n ≤ out.new.count.n) }
    {
        out.count_one(true, left, site.blamed(place))?;
        let inner = self.block(&items.list, site, left - 1, out.count)?;
        let count = inner.count;
        out.close(iteration(place, var, range, items, inner.list), count)?;
        Ok(None)
    }

    #[cycle(inlines)]
    fn recursion(
        &self,
        place: Place,
        name: &Spot,
        body: &CallBlock,
        site: &Site,
        left: usize,
        out: &mut Output,
    ) -> Result<Option<Frame>, Halt>
        ensures steps { Steps self.now.list.now left result (written out.new) (Inlines (map plain_sub self.now.list.now) (site_of (map plain_sub self.now.list.now) site.now left) (loop place name.now (plain_block body.now).place (plain_block body.now).list) (written out.old)) }
        ensures grows { IfOk result (λ next. grown_by next out.old.count.n ≤ out.new.count.n) }
    {
        out.count_one(true, left, site.blamed(place))?;
        let inner = self.block(&body.list, site, left - 1, out.count)?;
        let count = inner.count;
        out.close(named_loop(place, name, body, inner.list), count)?;
        Ok(None)
    }

    #[cycle(inlines)]
    fn choice(
        &self,
        place: Place,
        kernel: &Spot,
        at: &End,
        branches: &[CallBlock],
        site: &Site,
        left: usize,
        out: &mut Output,
    ) -> Result<Option<Frame>, Halt>
        ensures steps { Steps self.now.list.now left result (written out.new) (Inlines (map plain_sub self.now.list.now) (site_of (map plain_sub self.now.list.now) site.now left) (choice place kernel.now at.now (branches_of (map plain_block branches.now))) (written out.old)) }
        ensures grows { IfOk result (λ next. grown_by next out.old.count.n ≤ out.new.count.n) }
    {
        out.count_one(true, left, site.blamed(place))?;
        let inner = self.branches(branches, site, left - 1, out.count)?;
        let count = inner.count;
        out.close(self.offer(place, kernel, at, site, inner.list), count)?;
        Ok(None)
    }

    // The statements of a block that begins behind so many.
    #[cycle(inlines)]
    fn block(
        &self,
        list: &[CallStatement],
        site: &Site,
        left: usize,
        count: Count,
    ) -> Result<Output, Halt>
        ensures ends { Ends result (λ o. written o) (InlinesAll (map plain_sub self.now.list.now) (site_of (map plain_sub self.now.list.now) site.now left) (calls_of (map plain_statement list.now)) (block_behind count.n)) }
        ensures grows { IfOk result (λ o. count.n ≤ o.count.n) }
    {
        let mut inner = Output::behind(self.alloc, count);
        self.statements(list, site, left, &mut inner)?;
        Ok(inner)
    }

    #[cycle(inlines)]
    fn branches(
        &self,
        branches: &[CallBlock],
        site: &Site,
        left: usize,
        count: Count,
    ) -> Result<Offer, Halt>
        ensures ends { Ends result (λ o. offered o) (InlinesBranches (map plain_sub self.now.list.now) (site_of (map plain_sub self.now.list.now) site.now left) (branches_of (map plain_block branches.now)) (record { list = []; count = count.n })) }
        ensures grows { IfOk result (λ o. count.n ≤ o.count.n) }
    {
        let mut offer = Offer {
            list: Vec::new(self.alloc),
            count,
        };
        for branch in branches {
            let inner = self.block(&branch.list, site, left, offer.count)?;
            offer.branch(branch.place, inner)?;
        }
        Ok(offer)
    }
}
