//! An invocation is due where a new attempt of it could go on. What is noted of it, so that this is known without reading its journal: how
//! many of its arrivals its last attempt was handed, how many there are, and a flag, which is changed by its events.
//!
//! Which invocations are due, and what is handed out of an attempt's input, each frame from the row of one entry and in parts of any size:
//! these are definitions and laws over the accepted events. The functions do nothing, and their contracts are the laws.
#![tactic(auto)]

ghost use Rattle.due_laws.specs.Awake.{AwakeGrows, AwakeIsDue, HeardIsWithin, LiveIsAwake, NotedElsewhere, NotedFollows, NotedInvoked, NotedOpened, NotedRefused, NotedStill, NotedTicks, NotedUnticked};
ghost use Rattle.due_laws.specs.Leaves.{OnlyAwaitedWake};
ghost use Rattle.due_laws.specs.HandedBytes.{ChainGoesOn, ChainIsHandedOut};
ghost use Rattle.due_laws.specs.DueList.{AwakeFound, DueListed, DueTells};
ghost use Rattle.due_laws.specs.Rows.{AllKnownStays, OutcomesAreRead, PiecesAreRows};
ghost use Rattle.due_laws.specs.Forgetting.{OthersStayKnown};
ghost use Rattle.due_laws.specs.InputParts.{ChainsAreOne, CountIsUnseen, GivenIsAsked, PartIsHanded, PartIsTaken, RowsAreRead, RowsTell, TakenIsPart};

/// An invocation is due where it has the flag that is kept and no attempt of it is live.
pub fn awake_is_due()
    ensures is_due { AwakeIsDue }
    ensures grows { AwakeGrows }
    ensures within { HeardIsWithin }
    ensures awaited { OnlyAwaitedWake }
{}

/// How each kind of event changes what is noted, and that no other does.
pub fn noted_follows()
    ensures invoked { NotedInvoked }
    ensures follows { NotedFollows }
    ensures ticks { NotedTicks }
    ensures unticked { NotedUnticked }
    ensures elsewhere { NotedElsewhere }
    ensures still { NotedStill }
    ensures refused { NotedRefused }
    ensures opened { NotedOpened }
    ensures live { LiveIsAwake }
{}

/// The invocations that are due are those that have the flag, by id, without those that have a live attempt.
pub fn due_listed()
    ensures listed { DueListed }
    ensures found { AwakeFound }
    ensures tells { DueTells }
{}

/// A frame of an attempt's input is that of an entry known at its begin, or of a later arrival; and which of these are acknowledgements.
pub fn pieces_are_rows()
    ensures rows { PiecesAreRows }
    ensures known { AllKnownStays }
    ensures outcomes { OutcomesAreRead }
{}

/// Bytes that are handed out a part at a time are what would be handed out at once.
pub fn parts_are_handed()
    ensures taken { PartIsTaken }
    ensures part { TakenIsPart }
    ensures given { GivenIsAsked }
    ensures unseen { CountIsUnseen }
    ensures handed { PartIsHanded }
    ensures chain { ChainsAreOne }
    ensures out { ChainIsHandedOut }
    ensures goes_on { ChainGoesOn }
{}

/// How an input is read by the row, and what that tells: what is left, what may be handed out, and how many arrivals were handed whole.
pub fn rows_are_read()
    ensures steps { RowsAreRead }
    ensures tells { RowsTell }
{}

/// Once invocations are forgotten, what is noted of each other, and what its live attempt knows of its input, is the same.
pub fn others_stay_known()
    ensures { OthersStayKnown }
{}
