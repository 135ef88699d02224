//! Laws of levels with configured buses in node/breaker form, each the contract of a function that does nothing.

ghost use Rattle.grid_placed.specs.Laws.{BusViewsCorrespond, RecordsCorrespond};
ghost use Rattle.grid_placed.specs.Laws.{BusBreakerViewsCorrespond, PlansAreOwnBreakers};

/// The buses of the bus view are, in order, those of the configured view: of every level whose places fit, for all
/// positions of its switches and breakers, and all watts of its terminals. The watts of the records are those of the
/// terminals' records.
pub fn bus_views_correspond()
    ensures views { BusViewsCorrespond }
    ensures records { RecordsCorrespond }
{}

/// The bus/breaker view, with the flags `retained` of the records, has each configured bus alone with its connected
/// terminals, then each terminal that is not connected, and the switches between buses.
pub fn bus_breaker_views_correspond()
    ensures { BusBreakerViewsCorrespond }
{}

/// A terminal is connected and disconnected by just its own breaker, and no breaker stands before a configured bus.
pub fn plans_are_own_breakers()
    ensures { PlansAreOwnBreakers }
{}
