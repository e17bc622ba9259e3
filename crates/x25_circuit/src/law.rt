ghost use Rattle.x25_circuit.specs.laws.MessageLaws.{CutCarries, CutIsSound, SendAdds, SendStaysWhole, TakeAdds};
ghost use Rattle.x25_circuit.specs.laws.PullLaw.{PullsWhatWaits};
ghost use Rattle.x25_circuit.specs.laws.ParamsLaws.{FieldIsSaid, NoFieldIsKnown, KnownIsNoField, FieldIsAllowed};
ghost use Rattle.x25_circuit.specs.laws.ParamsLaws.{SaidIsAllowed, ProposalIsAnswer, DefaultIsAnswer, AnswerIsAllowed};
ghost use Rattle.x25_circuit.specs.laws.ParamsLaws.{TermsAreAllowed, FullIsReadAlike, FullSaysAll};

/// What the packets sent, and behind them those that wait, carry are the messages of `send`, and what the packets taken
/// carry are the messages told. ITU-T X.25 (10/96), sections 4.3.4 to 4.3.6.
pub fn messages_are_carried()
    ensures cut { CutCarries }
    ensures sound { CutIsSound }
    ensures sends { SendAdds }
    ensures whole { SendStaysWhole }
    ensures takes { TakeAdds }
{}

/// What a facility field says is what the end that reads it understands, and what may be proposed and answered stays
/// within bounds. ITU-T X.25 (10/96), section 6.12.
pub fn values_are_agreed()
    ensures said { FieldIsSaid }
    ensures in_full { FullIsReadAlike }
    ensures says_all { FullSaysAll }
    ensures no_field { NoFieldIsKnown }
    ensures known { KnownIsNoField }
    ensures field { FieldIsAllowed }
    ensures allowed { SaidIsAllowed }
    ensures proposal { ProposalIsAnswer }
    ensures usual { DefaultIsAnswer }
    ensures answer { AnswerIsAllowed }
    ensures terms { TermsAreAllowed }
{}

/// Where no message waits in a circuit, no data packet may be sent. ITU-T X.25 (10/96), section 4.4.1.
pub fn what_waits_is_pulled()
    ensures { PullsWhatWaits }
{}
