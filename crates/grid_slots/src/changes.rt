// What every variant gains or loses at once: all states that are kept change, each once.
ghost use Rattle.std.specs.Prelude.{◌≡◌, ◌≤◌, length, map, All, OnOk, OnErr, IfOk};
ghost use Rattle.grid_states.specs.Rows.{with_empty, shifted, HasRoom};
ghost use Rattle.grid_states.specs.Sums.{IsSmall};
ghost use Rattle.grid_slots.specs.Changes.{after, Fits};

use grid_ids::{Duplicate, Memory};
use grid_states::{Counted, Shift, States};

// A change of every variant.
#[derive(Clone, Copy)]
pub(crate) enum Change {
    // A switch comes, last in its level.
    GainSwitch {
        level: u32,
        opened: bool,
        retained: bool,
    },
    // A switch goes.
    LoseSwitch {
        level: u32,
        place: u32,
    },
    // A terminal goes.
    LoseTerminal {
        level: u32,
        node: u16,
        counted: Counted,
    },
}

// Changes these states, or where memory runs out nothing.
pub(crate) fn change_in(states: &mut States, change: Change) -> Result<(), Memory>
    requires { Fits change states.old }
    ensures ok { OnOk result (states.new ≡ after change states.old) }
    ensures err { OnErr result (states.new ≡ states.old) }
{
    match change {
        Change::GainSwitch {
            level,
            opened,
            retained,
        } => states.gain(level, opened, retained),
        Change::LoseSwitch { level, place } => states.lose(level, place),
        Change::LoseTerminal {
            level,
            node,
            counted,
        } => states.lose_terminal(level, node, counted),
    }
}

// Each of these states after the change.
pub(crate) fn changed_states(all: &Vec<States>, change: Change) -> Result<Vec<States>, Memory>
    requires { All (Fits change) all.now.items }
    ensures { IfOk result (λ made. made.items ≡ map (after change) all.now.items) }
{
    let mut made = Vec::with_capacity(*all.allocator(), all.len())?;
    for states in all {
        let mut own = states.copy()?;
        change_in(&mut own, change)?;
        made.push(own)?;
    }
    Ok(made)
}

// Each of these states with a level more, at this place, which has no switch yet.
pub(crate) fn wider_states(all: &Vec<States>, level: u32) -> Result<Vec<States>, Memory>
    requires { All (λ rows. level ≤ length rows.opened) all.now.items }
    ensures { IfOk result (λ made. made.items ≡ map (λ rows. with_empty rows level) all.now.items) }
{
    let alloc = *all.allocator();
    let mut made = Vec::with_capacity(alloc, all.len())?;
    for states in all {
        made.push(states.wider(alloc, level)?)?;
    }
    Ok(made)
}

// Adds to the sums of each of these states.
pub(crate) fn shift_each(all: &mut Vec<States>, by: Shift)
    requires room { All HasRoom all.old.items }
    requires small { IsSmall by }
    ensures { all.new.items ≡ map (shifted by) all.old.items }
{
    for place in 0..all.len() {
        all[place].shift(by);
    }
}
