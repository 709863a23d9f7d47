//! Laws of scripts and of the nets that play them.
ghost use Rattle.script_net.specs.Laws.{LaterPlays, SincePlays, UnplannedNeverFail, LaterGrows, GivenIsRead, CalmNeverFails, EachHasItsLine, NoneLeft};

/// What comes later than a net that was just loaded has a trace that its script plays.
pub fn what_is_later_is_played()
    ensures { LaterPlays }
{}

/// So does what came since, by calls of `listen` and `wait` as well.
pub fn what_came_since_is_played()
    ensures { SincePlays }
{}

/// Where the script plans no fault of `listen` and of `wait`, none of them fails.
pub fn an_unplanned_wait_never_fails()
    ensures { UnplannedNeverFail }
{}

/// A later net takes back nothing, and has no more events left.
pub fn nothing_is_taken_back()
    ensures { LaterGrows }
{}

/// The bytes that were read on a link and those that can still be read are the bytes that the script gave to it.
pub fn what_is_given_is_read()
    ensures { GivenIsRead }
{}

/// Where no line is `rfail` or `wfail`, no read and no write fails.
pub fn no_failing_line_is_no_failure()
    ensures { CalmNeverFails }
{}

/// The line of a link in the report names the ending and the bytes of the link's deeds.
pub fn each_link_has_its_line()
    ensures { EachHasItsLine }
{}

/// Where no event is left, no step is.
pub fn no_event_is_no_step()
    ensures { NoneLeft }
{}
