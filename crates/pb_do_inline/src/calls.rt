ghost use Rattle.std.specs.Prelude.{◌≡◌, ◌≤◌, map, IfOk};
ghost use Rattle.pb_do_syntax.specs.Calls.{call};
ghost use Rattle.pb_do_syntax.specs.Plain.{plain_sub};
ghost use Rattle.pb_do_syntax.specs.Inlining.{Inlines, passed_on};
ghost use Rattle.pb_do_inline.specs.Ends.{written, roles_of, site_of};
ghost use Rattle.pb_do_inline.specs.Frames.{Steps, grown_by};

use crate::frame::Frame;
use crate::halt::Halt;
use crate::output::Output;
use crate::site::Site;
use crate::subs::Subs;
use pb_syntax::Spot;
use pb_text::{Name, NoMemory, Place};

impl Subs<'_> {
    // The roles that arguments stand for.
    fn passed_on(&self, args: &[Spot], site: &Site) -> Result<Vec<Name>, NoMemory>
        ensures { IfOk result (λ names. names.items ≡ passed_on (roles_of (map plain_sub self.now.list.now) site.now) args.now) }
    {
        let mut names = Vec::new(self.alloc);
        for arg in args {
            names.push(self.role(site, &arg.name))?;
        }
        Ok(names)
    }

    /// Counts a call and begins it.
    pub(crate) fn enter(
        &self,
        place: Place,
        sub: &Spot,
        args: &[Spot],
        site: &Site,
        left: usize,
        out: &mut Output,
    ) -> Result<Option<Frame>, Halt>
        ensures steps { Steps self.now.list.now left result (written out.new) (Inlines (map plain_sub self.now.list.now) (site_of (map plain_sub self.now.list.now) site.now left) (call place sub.now args.now) (written out.old)) }
        ensures grows { IfOk result (λ next. grown_by next out.old.count.n ≤ out.new.count.n) }
    {
        let root = site.blamed(place);
        out.count_one(false, left, root)?;
        let Some(i) = self.index.names.find(&sub.name) else {
            return Ok(None);
        };
        let body = i as usize;
        if body >= self.list.len() {
            return Ok(None);
        }
        let names = self.passed_on(args, site)?;
        let site = Site {
            sub: Some(body),
            names,
            root: Some(root),
        };
        Ok(Some(Frame {
            site,
            body,
            next: 0,
        }))
    }
}
