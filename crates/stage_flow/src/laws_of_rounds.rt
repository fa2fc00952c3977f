//! The laws on all rounds: with labels for each of them, and that there are labels.

ghost use Rattle.stage_flow.specs.RoundEpochs.{RoundsGiveLeastEpochs};
ghost use Rattle.stage_flow.specs.LawsOfRounds.{LabelledRoundsMakeAFullFlow, LabelledRoundsHaveFewestDros, LabelsExist, LabelsExistInRounds, RoundsHaveLabels, RoundsAreFull, FewestDrosExist, LeastEpochsExist};

/// The rounds, as many as there are drivers, make a full flow, where there are labels for the sender of each; and the potentials
/// by the labels of the last round fit each residual arc of it.
pub fn labelled_rounds_make_a_full_flow()
    ensures { LabelledRoundsMakeAFullFlow }
{}

/// So the epochs by these potentials have the fewest DROs, as many as the flow of the rounds is worth.
pub fn labelled_rounds_have_fewest_dros()
    ensures { LabelledRoundsHaveFewestDros }
{}

/// While a mirror wants, there are labels where potentials fit each residual arc.
pub fn labels_exist()
    ensures { LabelsExist }
{}

/// In each round there are labels while a mirror wants.
pub fn labels_exist_in_rounds()
    ensures { LabelsExistInRounds }
{}

/// So there are labels for the sender of each round.
pub fn rounds_have_labels()
    ensures { RoundsHaveLabels }
{}

/// The rounds, as many as there are drivers, make a full flow.
pub fn rounds_are_full()
    ensures { RoundsAreFull }
{}

/// Some epochs have the fewest DROs, as many as the flow of the rounds is worth.
pub fn fewest_dros_exist()
    ensures { FewestDrosExist }
{}

/// So there are least optimal epochs.
pub fn least_epochs_exist()
    ensures { LeastEpochsExist }
{}

/// The epochs that the flow of the rounds gives, by the lengths of longest walks from the source, are the least optimal ones.
pub fn rounds_give_least_epochs()
    ensures { RoundsGiveLeastEpochs }
{}
