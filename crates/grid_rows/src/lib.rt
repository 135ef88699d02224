//! Worked examples of what no whole job by the top call shows: commits that come between, callers, gates, listeners, and
//! at what cost labels follow.
#![tactic(auto)]

#[cfg(test)]
mod benches;
#[cfg(test)]
mod callers;
#[cfg(test)]
mod cases;
#[cfg(test)]
mod gates;
#[cfg(test)]
mod networks;
#[cfg(test)]
mod stale;
#[cfg(test)]
mod telling;
