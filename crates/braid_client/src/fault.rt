ghost use Rattle.std.specs.Prelude.{◌≡◌};
ghost use Rattle.braid_client.specs.Texts.{fault_status};

use braid_ids::Memory as NoMemory;
use braid_io::Status;
use braid_outbox::WriteFault;

/// Why a command is not carried out. Nothing is kept then, but that a save which failed may leave anything under its
/// name.
#[derive(Debug, Drop)]
pub enum Fault {
    /// The words have no form of a command.
    Usage,
    /// Nothing is kept under the state's name.
    NoState,
    /// Something is kept under the name already.
    Exists,
    /// What is kept is no state. `at` is the place, counted from 0, where its bytes depart from the form.
    BadState { at: u64 },
    /// The updates of the state make no replica. `n` is the first, counted from 0 through the confirmed and then the
    /// unsent ones, that is in the way.
    BadEntry { n: u32 },
    /// The change is not written.
    Write(WriteFault),
    /// The state could not be loaded.
    LoadFault,
    /// The state could not be kept.
    SaveFault,
    /// There was no memory.
    Memory,
}

impl From<NoMemory> for Fault {
    ghost use Rattle.braid_client.specs.declared.fault.Fault.TheVariants as faults;

    ghost from_gives = { λ _ fault. fault ≡ faults.Memory };

    fn from(_none: NoMemory) -> Fault {
        Fault::Memory
    }
}

impl Fault {
    /// The status of a run that ends with it, where its line was written.
    pub(crate) fn status(&self) -> Status
        ensures value { result ≡ fault_status self.now }
    {
        match self {
            Fault::Usage => Status::Usage,
            Fault::LoadFault | Fault::SaveFault => Status::Outside,
            Fault::Memory => Status::Memory,
            Fault::NoState
            | Fault::Exists
            | Fault::BadState { .. }
            | Fault::BadEntry { .. }
            | Fault::Write(_) => Status::Bad,
        }
    }
}
