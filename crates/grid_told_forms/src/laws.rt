//! Laws of lines, each the contract of a function that does nothing.

ghost use Rattle.grid_told_forms.specs.Laws.{BusesAreRows, ConfiguredHistoriesFit, FindingsAreReadBack, FindingsAreTold, NumbersAreReadBack, NumbersAreTold, ReportsAreReadBack, ReportsAreTold};

/// The lines of contingencies are read back, and tell each contingency's place, its name and its finding.
pub fn findings_are_told()
    ensures read { FindingsAreReadBack }
    ensures told { FindingsAreTold }
{}

/// The lines of components are read back, and tell each variant, and of each bus its name and its components.
pub fn numbers_are_told()
    ensures rows { BusesAreRows }
    ensures read { NumbersAreReadBack }
    ensures told { NumbersAreTold }
{}

/// The lines of a configured outcome are read back, and tell the outcome.
pub fn reports_are_told()
    ensures read { ReportsAreReadBack }
    ensures told { ReportsAreTold }
{}

/// In what comes of every history with configured buses a view has the level that its request names.
pub fn configured_histories_fit()
    ensures { ConfiguredHistoriesFit }
{}
