//! What follows where claims and reports meet.

ghost use Rattle.qtc_kernel.specs.BroughtIn.{DesksAreWorkedOut};
ghost use Rattle.qtc_kernel.specs.Gathering.{ReportsMeetClaims};

/// Where all workers are gathered and one of them saw the counter's end, each claim was reported, and each report is of
/// a gathered piece, no piece is missing: the gathered ranges tile 0 to n, and the counter is at its end.
pub fn reports_meet_claims()
    ensures { ReportsMeetClaims }
{}

/// What the desks of an engine keep, put together, is the sequential answer where nothing was canceled; and in every
/// case no index was called twice, and each report has the texts of a block that was called.
pub fn desks_are_worked_out()
    ensures { DesksAreWorkedOut }
{}
