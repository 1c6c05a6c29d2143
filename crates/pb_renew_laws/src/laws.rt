ghost use Rattle.pb_renew_laws.specs.Calls.{CallsLoseNothing, OneHasTheLock};
ghost use Rattle.pb_renew_laws.specs.TwoCalls.{TwoCallsLoseNothing};

/// Of any number of calls at once on one OUT, each of which does what a call may and has a plan that loses nothing by
/// itself, in each order of their deeds, and wherever each is cut off: a body that stood in OUT or OUT.left stands in one
/// of the two, with its name and byte for byte.
pub fn calls_lose_nothing()
    ensures { CallsLoseNothing }
{}

/// So does each body of two calls, and each body of the OUT before them.
pub fn two_calls_lose_nothing()
    ensures { TwoCallsLoseNothing }
{}

/// At no moment do two calls have OUT.new as their own.
pub fn one_has_the_lock()
    ensures { OneHasTheLock }
{}
