//! Laws of reports, each the contract of a function that does nothing.

ghost use Rattle.grid_report.specs.Histories.{HearsItsJournal, InTurnIsOrder, OrderTellsSteps, OrdersMakeHistories, ReportShowsOrder, ReportShowsScripts, StepsTellOrder};

/// What a report tells of a listener is what the listener of that history heard.
pub fn listeners_hear_the_journal()
    ensures { HearsItsJournal }
{}

/// Steps in which each worker asked just its script are the steps of the scripts in the order in which they were made.
pub fn order_tells_steps()
    ensures { OrderTellsSteps }
{}

/// The steps of scripts in an order of theirs were made in that order, and the workers in turn are one.
pub fn steps_tell_order()
    ensures told { StepsTellOrder }
    ensures in_turn { InTurnIsOrder }
{}

/// The steps of scripts, in whatever order, are a history of their workers.
pub fn orders_make_histories()
    ensures { OrdersMakeHistories }
{}

/// The first line of a report names the worker of each step, in order.
pub fn report_shows_order()
    ensures { ReportShowsOrder }
{}

/// The report of scripts in an order of theirs has for each worker its script.
pub fn report_shows_scripts()
    ensures { ReportShowsScripts }
{}
