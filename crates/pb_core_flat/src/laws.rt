ghost use Rattle.pb_core_flat.specs.Laws.{BystanderFinds, ChoiceFinds, DesertedFirst, DesertedOneByOne, EachFewStops, EachIsMet, EachKeepsRules, EachStops, EitherOutcome, EndIsAt, FindsFirst, FindsInBlock, FindsOneByOne, FromOneIs, HoldsAgainIs, HoldsAgainOneByOne, LabelIs, MisfitsFirst, MisfitsOneByOne, NoneSharedIs, OnlyReceivesIs, OverBelowIs, PutBehind, PutBehindIs, PutIs, RankOfSeat, SeatOfRank, SomeBelowIs, SortedByFalling, SoundGoesOn, SourceAtFirst, SourceAtSome, StopsInTurn, TakesFirst, TakesInBlock, TakesOneByOne};

/// An end is at a rank exactly where it asks for the rank's role and index, for every N. The seat of a rank's number is the
/// rank's, and the number of a number's seat is the number.
pub fn ranks_are_seats()
    ensures end { EndIsAt }
    ensures seat { SeatOfRank }
    ensures rank { RankOfSeat }
{}

/// Who takes part in a statement and in what is done after it is who takes part in one of them, for a statement that goes
/// on, as each sound one does that is no continue.
pub fn takers_add()
    ensures sound { SoundGoesOn }
    ensures statement { TakesOneByOne }
    ensures block { TakesInBlock }
    ensures first { TakesFirst }
{}

/// What a rank finds first in a statement and in what is done after it is what it finds first in the statement, with what it
/// finds first after it in place of Nothing. Who takes no part finds Nothing.
pub fn outcomes_add()
    ensures statement { FindsOneByOne }
    ensures block { FindsInBlock }
    ensures first { FindsFirst }
    ensures either { EitherOutcome }
    ensures bystander { BystanderFinds }
    ensures choice { ChoiceFinds }
{}

/// A rank takes part in a foreach exactly where some end of its items has its role and index for some value of the variable.
pub fn each_is_met()
    ensures { EachIsMet }
{}

/// What a rank finds first in a foreach is what the first of its stops that has the rank finds, or Nothing where none has.
/// So it is where an end that moves is taken at the first value only for ranks of ends that stay. The ends that move are
/// taken by falling offset, and there is such an order for each list of ends.
pub fn each_stops()
    ensures all { EachStops }
    ensures few { EachFewStops }
    ensures sorted { SortedByFalling }
    ensures behind { PutBehind }
    ensures place { PutBehindIs }
    ensures turn { StopsInTurn }
{}

/// What breaks the rules 9 to 12 in a statement and in what is done after it is what breaks them in one and then in the
/// other. Nothing in a foreach does. Whether a block has a continue of a loop around it is read off the tree, for every N.
pub fn breaches_add()
    ensures misfits { MisfitsOneByOne }
    ensures deserted { DesertedOneByOne }
    ensures continues { HoldsAgainOneByOne }
    ensures misfits_first { MisfitsFirst }
    ensures deserted_first { DesertedFirst }
    ensures each { EachKeepsRules }
    ensures tree { HoldsAgainIs }
{}

/// The sender of a message in a foreach is at an index that is a lin over N and the receiver's own index as the variable.
pub fn sources_are()
    ensures put { PutIs }
    ensures first { SourceAtFirst }
    ensures some { SourceAtSome }
{}

/// The tests that the rules 9 to 12 make of lists of outcomes are tests on sets, and what there is for some rank below a
/// number, or for each.
pub fn tests_are()
    ensures receives { OnlyReceivesIs }
    ensures source { FromOneIs }
    ensures label { LabelIs }
    ensures shared { NoneSharedIs }
    ensures some { SomeBelowIs }
    ensures over { OverBelowIs }
{}
