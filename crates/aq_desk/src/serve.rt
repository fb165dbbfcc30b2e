//! The command `serve`.
ghost use Rattle.std.specs.Prelude.{◌≡◌, ◌⊎◌, false};
ghost use Rattle.aq_base.specs.Faults.{HasRisen};
ghost use Rattle.aq_keeper.specs.Told.{told_through};
ghost use Rattle.aq_outside.specs.Outside.{OfTold};
ghost use Rattle.aq_desk.specs.Serve.{HasAttended, HasServed, around_of, serve_outcome};
ghost use Rattle.aq_desk.specs.Stop.{EndsAs, status_of};

use crate::office::open;
use crate::stop::Stop;
use aq_base::Failed;
use aq_keeper::Keeper;
use aq_office::service::OfficeService;
use aq_outside::Door;
use aq_serve::ServeFault;
use std::alloc::Global;

/// Serves connections over the office of the tables.
pub(crate) fn serve<K: Keeper, D: Door>(
    alloc: Global,
    port: u16,
    connections: u32,
    keeper: &mut K,
    door: &mut D,
) -> Result<(), Stop>
    requires none_open { (D.seen door.old).is_open ≡ false }
    ensures served { OfTold (told_through (K.seen keeper.old).tables (K.seen keeper.new).tables)
        (λ rows. HasServed (record { port = port; connections = connections }) rows
        (status_of result)
        (around_of (D.seen door.old) (K.seen keeper.old))
        (around_of (D.seen door.new) (K.seen keeper.new))
        × EndsAs (serve_outcome rows) result) }
{
    let book = open(alloc, keeper)?;
    let mut service = OfficeService::new(alloc, book)?;
    attend(alloc, port, connections, &mut service, keeper, door)
}

/// Listens, and serves connections over an office.
fn attend<K: Keeper, D: Door>(
    alloc: Global,
    port: u16,
    connections: u32,
    service: &mut OfficeService,
    keeper: &mut K,
    door: &mut D,
) -> Result<(), Stop>
    requires none_open { (D.seen door.old).is_open ≡ false }
    ensures { HasAttended (record { port = port; connections = connections }) service.old
        (around_of (D.seen door.old) (K.seen keeper.old))
        (around_of (D.seen door.new) (K.seen keeper.new)) result }
{
    if door.listen(port).is_err() {
        return Err(Stop::DoorFailed);
    }
    match aq_serve::serve(alloc, service, keeper, door, connections) {
        Ok(()) => Ok(()),
        Err(ServeFault::DoorFailed) => Err(Stop::DoorFailed),
        Err(ServeFault::Memory) => Err(Stop::Memory),
    }
}
