ghost use Rattle.std.specs.Prelude.{◌≡◌, map};
ghost use Rattle.pb_do_syntax.specs.Plain.{plain_sub};
ghost use Rattle.pb_do_syntax.specs.Inlining.{stands_for, renamed_spot, renamed_end};
ghost use Rattle.pb_do_inline.specs.Ends.{roles_of};

use crate::copies::copied_index;
use crate::site::Site;
use crate::subs::Subs;
use pb_syntax::{End, Spot};
use pb_text::Name;

impl Subs<'_> {
    // The role that a name stands for.
    pub(crate) fn role(&self, site: &Site, name: &Name) -> Name
        ensures { result ≡ stands_for (roles_of (map plain_sub self.now.list.now) site.now) name.now }
    {
        let Some(sub) = site.sub else {
            return *name;
        };
        let Some(params) = self.index.params.get(sub) else {
            return *name;
        };
        let Some(i) = params.find(name) else {
            return *name;
        };
        match site.names.get(i as usize) {
            Some(role) => *role,
            None => *name,
        }
    }

    pub(crate) fn spot(&self, site: &Site, spot: &Spot) -> Spot
        ensures { result ≡ renamed_spot (roles_of (map plain_sub self.now.list.now) site.now) spot.now }
    {
        Spot {
            name: self.role(site, &spot.name),
            place: spot.place,
        }
    }

    pub(crate) fn end(&self, site: &Site, end: &End) -> End
        ensures { result ≡ renamed_end (roles_of (map plain_sub self.now.list.now) site.now) end.now }
    {
        End {
            role: self.spot(site, &end.role),
            index: copied_index(&end.index),
        }
    }
}
