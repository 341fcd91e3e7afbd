ghost use Rattle.std.specs.Prelude.{◌≡◌, IfOk, IfErr};
ghost use Rattle.braid_check.specs.Kept.{ReadsHistory};
ghost use Rattle.braid_check.specs.Runs.{GivesSome};

use crate::stop::Stop;
use crate::taking::take_update;
use braid_ids::Memory;
use braid_io::Source;
use braid_stream::{Next, UpdateReader};
use braid_text::{Accept, Resource};
use std::alloc::Global;

/// Takes the updates of a source as long as a replica accepts them, up to the end of the stream.
pub fn read_history<S: Source>(alloc: Global, source: &mut S) -> Result<(Resource, Stop), Memory>
    ensures ok { IfOk result (λ read. ReadsHistory read.0 read.1 (S.intake source.old) (S.intake source.new)) }
    ensures err { IfErr result (λ _. GivesSome (S.intake source.old) (S.intake source.new)) }
    ensures kept { S.beside_reads source.new ≡ S.beside_reads source.old }
{
    let mut reader = UpdateReader::new(alloc);
    let mut resource = Resource::new(alloc);
    let stop = 'reading: loop {
        let update = match reader.next(source) {
            Next::Update(update) => update,
            Next::End => break Stop::End,
            Next::Torn { at } => break Stop::Torn { at },
            Next::Fault(fault) => break Stop::Fault(fault),
            Next::ReadFault => break Stop::ReadFault,
            Next::Spent => break Stop::Spent,
            Next::Memory => return Err(Memory),
        };
        match take_update(alloc, &mut resource, update) {
            Accept::New | Accept::Known => {}
            Accept::Memory => return Err(Memory),
            refusal => break Stop::Refused(refusal),
        }
    };
    Ok((resource, stop))
}
