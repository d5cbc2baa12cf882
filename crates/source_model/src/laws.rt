//! What the definitions of the source machine promise, each as the contract of a call that does nothing.

ghost use Rattle.source_model.specs.ChangeLaws.{InterfaceInChanged, SameDecides};
ghost use Rattle.source_model.specs.EvaluationLaws.{AlwaysEnds, ArgumentsInOrder, BlocksHaveScopes, DeclarationsBegin, ExpressionsInOrder, ForHasAScope, JumpsLeave, LoopsTurn, PlacesStop, StatementsAsPieces, StatementsInOrder, StopsAtAStop, TestsChoose};
ghost use Rattle.source_model.specs.EvaluationLaws.{EndsOfLists, JumpsLeaveDo, PartsOfPlaces, ValuesChange};
ghost use Rattle.source_model.specs.FrameLaws.{FramesComeThrough};
ghost use Rattle.source_model.specs.JournalLaws.{ClosedOnce, JournalIsARun, MarkedDecides, OpenCanBeDecided, SeatsAlwaysFit, VersionsAreCounted};
ghost use Rattle.source_model.specs.Laws.{CurrentIsGreatest, InstallKeepsOutput, InstallKeepsThreads, JoinsAreMade, LocksWait, MarkedStands, OthersStay, EntriesApart, OutputGrows, SharedIsConsistent, TwoParts, WaitersStand};
ghost use Rattle.source_model.specs.ScheduleLaws.{NextCanHappen, NothingNext, SoloIsLegal, SoloIsPrompt, StuckByState};

/// Moves made in two parts are the moves made as a whole.
pub fn moves_in_two_parts()
    ensures { TwoParts }
{}

/// Where a definition was misused, nothing moves and nothing is installed.
pub fn marked_world_stands()
    ensures { MarkedStands }
{}

/// An install changes no thread, and so no frame, and prints nothing.
pub fn install_keeps_frames()
    ensures threads { InstallKeepsThreads }
    ensures output { InstallKeepsOutput }
{}

/// A move changes no other thread.
pub fn other_threads_stay()
    ensures { OthersStay }
{}

/// A thread that waits for a mutex or for another thread can't move; a lock waits exactly where another thread holds the
/// mutex, and a join that doesn't wait is made or traps.
pub fn waiters_stand()
    ensures stand { WaitersStand }
    ensures locks { LocksWait }
    ensures joins { JoinsAreMade }
{}

/// What was printed stays, and more may come after it.
pub fn output_grows()
    ensures { OutputGrows }
{}

/// No definition belongs to a version above the current one.
pub fn current_version_is_greatest()
    ensures { CurrentIsGreatest }
{}

/// In each world that a run comes to, the entries of a name have no version in common.
pub fn entries_stay_apart()
    ensures { EntriesApart }
{}

/// Local evaluation ends at a stop, with a trap, or with nothing left, and never between; before a stop it does nothing.
pub fn local_evaluation_ends()
    ensures ends { AlwaysEnds }
    ensures rests { StopsAtAStop }
{}

/// Local evaluation takes the first pending piece: a tree is replaced by the pieces of which it is made, in order.
pub fn pieces_in_order()
    ensures expressions { ExpressionsInOrder }
    ensures places { PlacesStop }
    ensures arguments { ArgumentsInOrder }
    ensures statements { StatementsAsPieces }
    ensures declarations { DeclarationsBegin }
    ensures tests { TestsChoose }
    ensures sequences { StatementsInOrder }
    ensures blocks { BlocksHaveScopes }
    ensures for_loops { ForHasAScope }
    ensures loops { LoopsTurn }
    ensures jumps { JumpsLeave }
    ensures jumps_from_do { JumpsLeaveDo }
    ensures ends { EndsOfLists }
    ensures values { ValuesChange }
    ensures parts { PartsOfPlaces }
{}

/// In each world that a run comes to, each frame comes through the body that its function has in the frame's version. So
/// by the law of `c_semantics` it goes along the skeleton of that body.
pub fn frames_come_through_their_bodies()
    ensures { FramesComeThrough }
{}

/// The moves of a legal journal are a run of the source machine, to the world that the journal comes to: what is kept
/// beside the world decides when a move is made and when a text is installed, and nothing else of the run.
pub fn journal_is_a_run()
    ensures { JournalIsARun }
{}

/// A record is consistent exactly if its uses share a version.
pub fn records_share_a_version()
    ensures { SharedIsConsistent }
{}

/// For each guard that a legal journal comes to: there are as many seats as slots, only a live thread is at a check-in or
/// has a row in force, and only a thread in a transaction is pinned.
pub fn seats_fit_their_slots()
    ensures { SeatsAlwaysFit }
{}

/// If each text defines `main`, the current version is the number of texts so far.
pub fn versions_are_counted()
    ensures { VersionsAreCounted }
{}

/// In a legal journal each offer is closed at most once.
pub fn offers_are_closed_once()
    ensures { ClosedOnce }
{}

/// As long as the run hasn't ended and no definition was misused, an open offer can be decided.
pub fn open_offers_can_be_decided()
    ensures { OpenCanBeDecided }
{}

/// Where a definition was misused, a decision changes nothing of the world, so it installs nothing.
pub fn marked_world_takes_no_patch()
    ensures { MarkedDecides }
{}

/// What the solo schedule has next can happen, as long as no definition was misused; its journals are legal and prompt.
pub fn solo_schedule_is_prompt()
    ensures next { NextCanHappen }
    ensures legal { SoloIsLegal }
    ensures prompt { SoloIsPrompt }
{}

/// Where the solo schedule has nothing next, the run has finished or trapped, or it is stuck with no offer open or due. It
/// is stuck exactly if no thread of its world can move, though one lives, and none is at a check-in.
pub fn solo_schedule_goes_to_the_end()
    ensures nothing_next { NothingNext }
    ensures stuck { StuckByState }
{}

/// The interface set of two texts lies in their changed set.
pub fn interface_set_lies_in_changed_set()
    ensures { InterfaceInChanged }
{}

/// The test by which the bodies of two functions are compared says their equality.
pub fn equal_bodies_are_equal()
    ensures { SameDecides }
{}
