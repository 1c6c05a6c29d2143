//! A file at one N.

use pb_explain_source::{Page, Part};
use pb_explain_tree::is_same;
use pb_syntax::{End, FileTree, IndexText, LinText, RangeText, RoleText};
use pb_text::{Name, NoMemory};

/// A protocol file, and a value of its constant.
#[derive(Clone, Copy)]
pub struct Setting<'a> {
    pub file: &'a FileTree,
    pub n: i64,
}

/// A variable and its value.
#[derive(Clone, Copy)]
pub struct Bound {
    pub name: Name,
    pub value: i64,
}

/// The numbers from `low` to `high`, both included.
#[derive(Clone, Copy)]
pub struct Span {
    pub low: i64,
    pub high: i64,
}

impl Span {
    /// How many numbers there are.
    pub fn count(self) -> i64 {
        self.high.saturating_sub(self.low).saturating_add(1).max(0)
    }

    /// Whether the number is one of them.
    pub fn has(self, n: i64) -> bool {
        self.low <= n && n <= self.high
    }
}

/// The value of a lin over N, a variable, or nothing.
fn sum(base: i64, off: i32) -> i64 {
    base.saturating_add(i64::from(off))
}

impl<'a> Setting<'a> {
    /// The value of a lin, where its variable is the one that is bound, if it has one. None for another variable.
    pub fn value(&self, lin: &LinText, bound: Option<&Bound>) -> Option<i64> {
        let Some(base) = &lin.base else {
            return Some(i64::from(lin.off));
        };
        if is_same(&base.name, &self.file.constant.name) {
            return Some(sum(self.n, lin.off));
        }
        let bound = bound?;
        if is_same(&base.name, &bound.name) {
            return Some(sum(bound.value, lin.off));
        }
        None
    }

    /// The values of a range without variables.
    pub fn span(&self, range: &RangeText) -> Option<Span> {
        let low = self.value(&range.low, None)?;
        let high = self.value(&range.high, None)?;
        Some(Span { low, high })
    }

    /// The indices of a role. A role without a range has the index 0 alone.
    pub fn indices(&self, role: &RoleText) -> Option<Span> {
        match &role.range {
            Some(range) => self.span(range),
            None => Some(Span { low: 0, high: 0 }),
        }
    }

    /// The role of this name.
    pub fn role(&self, name: &Name) -> Option<&'a RoleText> {
        for role in &self.file.roles {
            if is_same(&role.role.name, name) {
                return Some(role);
            }
        }
        None
    }

    /// The index of an end, where a variable is bound.
    pub fn index(&self, end: &End, bound: Option<&Bound>) -> Option<i64> {
        match &end.index {
            IndexText::Zero => Some(0),
            IndexText::At(lin) => self.value(lin, bound),
            IndexText::Bind(variable, _) => {
                let bound = bound?;
                if is_same(&variable.name, &bound.name) {
                    Some(bound.value)
                } else {
                    None
                }
            }
        }
    }

    /// How many ranks there are.
    pub fn total(&self) -> i64 {
        let mut total = 0i64;
        for role in &self.file.roles {
            if let Some(span) = self.indices(role) {
                total = total.saturating_add(span.count());
            }
        }
        total
    }

    /// The number of a rank, from 0. None where there is no such rank.
    pub fn number(&self, name: &Name, index: i64) -> Option<i64> {
        let mut before = 0i64;
        for role in &self.file.roles {
            let span = self.indices(role)?;
            if is_same(&role.role.name, name) {
                if !span.has(index) {
                    return None;
                }
                return Some(before.saturating_add(index.saturating_sub(span.low)));
            }
            before = before.saturating_add(span.count());
        }
        None
    }
}

/// Appends a rank and its number, as `W[2] (rank 3 of 4)`.
pub fn say_rank(
    page: &mut Page,
    setting: &Setting,
    role: &Name,
    index: i64,
) -> Result<(), NoMemory> {
    page.say(&[Part::Text("`"), Part::Rank(role, index), Part::Text("`")])?;
    match setting.number(role, index) {
        Some(number) => page.say(&[
            Part::Text(" (rank "),
            Part::Number(number),
            Part::Text(" of "),
            Part::Number(setting.total()),
            Part::Text(")"),
        ]),
        None => Ok(()),
    }
}
