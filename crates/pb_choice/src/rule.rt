ghost use Rattle.std.specs.Prelude.{◌≡◌};

/// What a rank that is told of a choice finds first in its branches.
#[derive(Clone, Copy)]
pub enum ChoiceRule {
    /// Rule 10: it finds only receives.
    OnlyReceives,
    /// Rule 11: all of them are from one rank.
    OneSource,
    /// Rule 12: no label of theirs is one of an earlier branch.
    OwnLabels,
}

impl ChoiceRule {
    ghost use Rattle.pb_choice.specs.Flaws.{number_of};

    /// The rule's number.
    pub fn number(self) -> u8
        ensures { result ≡ number_of self }
    {
        match self {
            ChoiceRule::OnlyReceives => 10,
            ChoiceRule::OneSource => 11,
            ChoiceRule::OwnLabels => 12,
        }
    }
}
