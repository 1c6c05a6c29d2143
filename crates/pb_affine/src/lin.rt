ghost use Rattle.std.specs.Prelude.{◌≡◌, ◌+ℤ◌};

/// What an offset is added to.
#[derive(Clone, Copy, PartialEq, Eq)]
pub enum Base {
    /// Nothing.
    Fixed,
    /// The number N of the protocol's constant.
    Param,
    /// The loop's variable.
    Var,
}

/// A number `off`, `N + off` or `i + off`. Offsets lie within 1,000,000 of zero.
#[derive(Clone, Copy, PartialEq, Eq)]
pub struct Lin {
    pub base: Base,
    pub off: i32,
}

impl Lin {
    ghost use Rattle.pb_affine.specs.Values.{value, IsNear, IsSmall, shifted, put};

    /// The number at N = n and with i for the variable: the offset, plus n for Param, plus i for Var. Takes no memory.
    pub fn value(self, n: i64, i: i64) -> i64
        requires off { IsSmall self.off }
        requires n { IsNear n }
        requires i { IsNear i }
        ensures { result ≡ value self n i }
    {
        let off = i64::from(self.off);
        match self.base {
            Base::Fixed => off,
            Base::Param => off + n,
            Base::Var => off + i,
        }
    }

    /// The same lin with `c` added to its offset. Takes no memory.
    pub fn shift(self, c: i32) -> Lin
        requires { IsSmall (self.off +ℤ c) }
        ensures { result ≡ shifted self c }
    {
        Lin {
            base: self.base,
            off: self.off + c,
        }
    }

    /// A Var lin becomes `by` shifted by its offset; others stay. Takes no memory.
    pub fn put_var(self, by: Lin) -> Lin
        requires { IsSmall (put self by).off }
        ensures { result ≡ put self by }
    {
        match self.base {
            Base::Fixed | Base::Param => self,
            Base::Var => by.shift(self.off),
        }
    }
}
