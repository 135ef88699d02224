//! Laws of connected and synchronous components, each the contract of a function that does nothing.

ghost use Rattle.grid_hvdc.specs.Numbers.{SynchronousAreConnected, SynchronousIsTold};

/// Two buses of one synchronous component are of one connected component.
pub fn synchronous_are_connected()
    ensures { SynchronousAreConnected }
{}

/// The synchronous component of a bus, with its size, is the one that the command `components` tells of it.
pub fn synchronous_is_told()
    ensures { SynchronousIsTold }
{}
