//! The laws of the machine of units: each is the contract of a function that does nothing.

ghost use Rattle.sector_machine.specs.Laws.{OpeningHolds, EventsKeepHolds, RunsHold, ForwardIsAccepted, BackIsAccepted, AcceptedForwardKeepsRows, AcceptedBackKeepsRows, RunsGoOn, OneOpening, OneStateAfter, DoneIsReduced, HoldsDoneIsReduced, TablesAreThere, OneTable, WaitingShowsNoEliminatedUnit, BackRowsShowDoneUnits, TakenShowTheUnit, GroupedByGreatest, TasksStay, EventsFollowEachOther, SomethingIsReady, DoneIsTheEnd, ForwardIsCounted, BackIsCounted, CountsAreBounded, DoneIsCounted, RunsAreShort, TakenMeetTheConditions, ForwardRowsMeetTheConditions, EliminationServes, SubstitutionServes, MoreBelowServes, StatesAreThere};

/// What holds of an opening, and so of each state that a run reaches, since every event keeps it.
pub fn events_keep_the_invariant()
    ensures opening { OpeningHolds }
    ensures event { EventsKeepHolds }
    ensures run { RunsHold }
{}

/// Every event is accepted, and rows that are accepted keep what holds of the rows of a state, whether
/// or not they meet an event.
pub fn accepted_rows_keep_the_rows()
    ensures forward_event { ForwardIsAccepted }
    ensures back_event { BackIsAccepted }
    ensures forward { AcceptedForwardKeepsRows }
    ensures back { AcceptedBackKeepsRows }
{}

/// Rows open one state, an event leads to one state, and a run goes on by an event.
pub fn runs_go_on()
    ensures opening { OneOpening }
    ensures event { OneStateAfter }
    ensures run { RunsGoOn }
{}

/// Every run from the opening of equations that ends done has as all its back rows, ascending, the
/// reduced list of the equations, whichever events were chosen. Nothing is asked of the modulus.
pub fn done_is_reduced()
    ensures run { DoneIsReduced }
    ensures state { HoldsDoneIsReduced }
{}

/// The back rows of a state stand in ascending order in one way: there is a table, and only one.
pub fn back_rows_are_a_table()
    ensures there { TablesAreThere }
    ensures only { OneTable }
{}

/// No waiting row shows an integral of a unit that has forward rows, and a back row shows only
/// integrals of units that have back rows.
pub fn waiting_shows_no_eliminated_unit()
    ensures waiting { WaitingShowsNoEliminatedUnit }
    ensures back { BackRowsShowDoneUnits }
{}

/// Waiting rows are grouped by the units of their greatest integrals, and the rows that a forward
/// event takes are all waiting rows that show an integral of its unit.
pub fn taken_rows_show_the_unit()
    ensures taken { TakenShowTheUnit }
    ensures grouped { GroupedByGreatest }
{}

/// Where events of two units may both happen, each may still happen after the other, and starts from
/// the same rows.
pub fn events_commute()
    ensures tasks { TasksStay }
    ensures events { EventsFollowEachOther }
{}

/// An event may happen for some unit until the state is done, and then for none.
pub fn something_is_ready()
    ensures ready { SomethingIsReady }
    ensures done { DoneIsTheEnd }
{}

/// Each event gives one unit more its forward rows or its back rows, so a run has two events for each
/// unit at most, and a state is done where all units are counted.
pub fn events_are_counted()
    ensures forward { ForwardIsCounted }
    ensures back { BackIsCounted }
    ensures bounds { CountsAreBounded }
    ensures done { DoneIsCounted }
    ensures run { RunsAreShort }
{}

/// The rows of a task meet the conditions of the elimination and of the back substitution, and what
/// these compute from them is an event.
pub fn computed_rows_serve()
    ensures taken { TakenMeetTheConditions }
    ensures forward_rows { ForwardRowsMeetTheConditions }
    ensures elimination { EliminationServes }
    ensures states { StatesAreThere }
    ensures substitution { SubstitutionServes }
    ensures more_below { MoreBelowServes }
{}
