ghost use Rattle.x25_link.specs.code.Bounds.{FewWait, FewStand, WindowIsSmall, TakeSendsFew, PutSendsOne};
ghost use Rattle.x25_link.specs.laws.NoteLaw.{TakeTells, TakeContinues, TakeHandsUp, TimerTells, TimerContinues};
ghost use Rattle.x25_link.specs.laws.NoteLaw.{PutTells, ConnectTells, DisconnectTells, AbandonTells, RelinkTells};
ghost use Rattle.x25_link.specs.laws.RestLaw.{TakeSaysAll, PutSaysAll, TimerSaysAll, ConnectSaysAll, DisconnectSaysAll};
ghost use Rattle.x25_link.specs.laws.RestLaw.{AbandonSaysAll, NoTimerIsIdle, AllHeardIsRest, RestIsAllHeard};
ghost use Rattle.x25_link.specs.laws.AnswerLaw.{TimerAsks, PollIsAnswered, FinalEndsRecovery, ReadyIsHeard};
ghost use Rattle.x25_link.specs.laws.AnswerLaw.{RejGoesBack, WantedIsTaken, OtherIsPassedOver, OutDeclines, DmLeavesUp};
ghost use Rattle.x25_link.specs.laws.BusyLaw.{TakeSaysBusy, PutSaysBusy, TimerSaysBusy};
ghost use Rattle.x25_link.specs.laws.SetUp.{TakeWaits, TakeSetsUp, ConnectWaits, TimerWaits, DisconnectCloses};
ghost use Rattle.x25_link.specs.laws.SetUp.{TakeCloses, TimerCloses, RelinkIsTwoSteps};
ghost use Rattle.x25_link.specs.laws.WindowLaw.{TakeFollows, PutFollows, TimerFollows, DisconnectFollows};
ghost use Rattle.x25_link.specs.laws.WindowLaw.{AbandonFollows, TakeStaysOut, DisconnectStaysOut};

/// Each step of a station that is Up hears, hands up and then sends as the window machine may, and Up is left exactly
/// where there is a reason. A station that is out stays out, but for a SABM.
pub fn follows_the_window()
    ensures take { TakeFollows }
    ensures put { PutFollows }
    ensures timer { TimerFollows }
    ensures disconnect { DisconnectFollows }
    ensures abandon { AbandonFollows }
    ensures take_out { TakeStaysOut }
    ensures disconnect_out { DisconnectStaysOut }
{}

/// What a station does in set-up: at connect, at a SABM in Down and in Up, and at all that comes while UA is awaited.
/// Relink is abandon, and then connect. And what it does at disconnect and after it: a DISC that is sent again ends
/// once, by UA, by DM, or as N2 more of it weren't answered.
pub fn sets_up_by_rows()
    ensures waits { TakeWaits }
    ensures sets_up { TakeSetsUp }
    ensures connects { ConnectWaits }
    ensures timer { TimerWaits }
    ensures disconnects { DisconnectCloses }
    ensures closes { TakeCloses }
    ensures timer_closes { TimerCloses }
    ensures relinks { RelinkIsTwoSteps }
{}

/// What the notes of a step say of the station after it: after LinkUp it begins afresh, after LinkDown alone it isn't
/// up and its lists are empty, and where nothing is noted it is up or not as before. A packet is handed up in Up alone,
/// while at most 254 wait.
pub fn notes_what_changes()
    ensures take { TakeTells }
    ensures take_continues { TakeContinues }
    ensures take_hands_up { TakeHandsUp }
    ensures timer { TimerTells }
    ensures timer_continues { TimerContinues }
    ensures put { PutTells }
    ensures connect { ConnectTells }
    ensures disconnect { DisconnectTells }
    ensures abandon { AbandonTells }
    ensures relink { RelinkTells }
{}

/// What a link holds at most: 256 packets that wait, and k, at most 7, that were sent and aren't acknowledged. Octets
/// are answered by nine frames at most, and a packet that is handed down sends one at most.
pub fn holds_few()
    ensures wait { FewWait }
    ensures stand { FewStand }
    ensures window { WindowIsSmall }
    ensures take { TakeSendsFew }
    ensures put { PutSendsOne }
{}

/// Each step leaves nothing that may be sent and no RR that is owed, where no more is acknowledged than V(S) and k is
/// at most 7. So a station that is Up is idle where timer T1 doesn't run; and at rest, which is idle with T1 stopped,
/// exactly where neither recovery nor a busy peer stands and all is acknowledged.
pub fn comes_to_rest()
    ensures take { TakeSaysAll }
    ensures put { PutSaysAll }
    ensures timer { TimerSaysAll }
    ensures connect { ConnectSaysAll }
    ensures disconnect { DisconnectSaysAll }
    ensures abandon { AbandonSaysAll }
    ensures no_timer { NoTimerIsIdle }
    ensures all_heard { AllHeardIsRest }
    ensures only_then { RestIsAllHeard }
{}

/// What timer T1 asks, and how a station that is Up answers each frame with a valid N(R): a poll by F=1 and V(R) first,
/// busy or not; F=1 by what isn't acknowledged, from the first on; the I frame that is wanted by at least one frame
/// with the new V(R). A station that is out answers a poll by DM, and DM takes Up away.
pub fn asks_and_answers()
    ensures timer { TimerAsks }
    ensures poll { PollIsAnswered }
    ensures recovery { FinalEndsRecovery }
    ensures ready { ReadyIsHeard }
    ensures rej { RejGoesBack }
    ensures wanted { WantedIsTaken }
    ensures other { OtherIsPassedOver }
    ensures out { OutDeclines }
    ensures dm { DmLeavesUp }
{}

/// What a station that is Up says of whether it is busy, at each step that leaves it Up. RNR was the last of the RRs
/// and RNRs that it said exactly where it keeps so; an RR or REJ goes only where it isn't busy after the step; and no I
/// frame goes where its peer is busy then. With `comes_to_rest`: where RNR was the last, the station is busy, so an RR
/// goes in the step by which it no longer is.
pub fn tells_whether_busy()
    ensures take { TakeSaysBusy }
    ensures put { PutSaysBusy }
    ensures timer { TimerSaysBusy }
{}
