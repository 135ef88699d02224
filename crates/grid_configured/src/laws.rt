//! Laws of reports of jobs with configured buses, each the contract of a function that does nothing.

ghost use Rattle.grid_configured.specs.Reports.{ReportShowsOrder, ReportShowsScripts};

/// The first line of a report names the worker of each step, in order.
pub fn report_shows_order()
    ensures { ReportShowsOrder }
{}

/// The report of scripts in an order of theirs has for each worker its script.
pub fn report_shows_scripts()
    ensures { ReportShowsScripts }
{}
