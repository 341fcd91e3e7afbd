//! Laws of runs, each the contract of a function that does nothing.

ghost use Rattle.braid_server.specs.Laws.{WornLate, Completes};

use braid_io::{Bell, Door};

/// A worker or a session is refused a turn only where all notes together have 9,223,372,036,854,775,808 marks or more.
pub fn worn_late<D: Door, L: Bell>()
    ensures law { WornLate D.doorway L.ringing }
{}

/// Words of a form are served: where neither port nor doors nor output failed, the run is Done with its whole text, or
/// there was no memory.
pub fn completes<D: Door, L: Bell>()
    ensures law { Completes D.doorway L.ringing }
{}
