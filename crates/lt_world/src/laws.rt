//! Laws of the outside. Each is the contract of a function without a body.
ghost use Rattle.lt_world.specs.Laws.{DeedsTellAll, FilesStayCalm, TextsStayCalm, SinksStayCalm, LogIsQuiet, NoneArrives, NoneIsDialled};

/// The bytes that came and went on a link, and how it ended, are those of its deeds.
pub fn deeds_tell_all()
    ensures { DeedsTellAll }
{}

/// Files in memory for which nothing is planned never fail, whatever is called.
pub fn unplanned_files_never_fail()
    ensures calm { FilesStayCalm }
{}

/// Texts in memory for which nothing is planned never fail.
pub fn unplanned_texts_never_fail()
    ensures calm { TextsStayCalm }
{}

/// A sink in memory for which nothing is planned does not fail while it has room.
pub fn unplanned_sinks_fail_only_when_full()
    ensures calm { SinksStayCalm }
{}

/// Only calls that were counted are in the log of those that failed.
pub fn what_is_not_counted_is_not_logged()
    ensures quiet { LogIsQuiet }
{}

/// At 2^32 links none arrives, and a connect fails.
pub fn links_run_out()
    ensures arrives { NoneArrives }
    ensures dialled { NoneIsDialled }
{}
