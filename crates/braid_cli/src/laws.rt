//! Laws of runs, each the contract of a function that does nothing.

ghost use Rattle.braid_cli.specs.Refusals.{OnlyUsage, NoFormIsUsage};

use braid_io::{Bell, Door};

/// A run ends with status Usage only at words that have the form of no command; the line that says so was then written, and
/// nothing else was touched. Such words touch nothing but what is printed, and end so, but where that line could not be
/// written whole, or there was no memory.
pub fn refusals<D: Door, L: Bell>()
    ensures usage { OnlyUsage D.doorway L.ringing }
    ensures no_form { NoFormIsUsage D.doorway L.ringing }
{}
