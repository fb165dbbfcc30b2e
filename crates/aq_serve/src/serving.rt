//! Connections, one after the other.
ghost use Rattle.std.specs.Prelude.{◌≡◌, true, false};
ghost use Rattle.std.specs.Option.{is_some};
ghost use Rattle.aq_serve.specs.Serving.{Serves};
ghost use Rattle.aq_serve.specs.Talking.{ServesNext};

use crate::connection::converse;
use crate::ending::ServeFault;
use crate::service::Service;
use aq_base::{Failed, Memory};
use aq_outside::Door;
use std::alloc::Global;

/// Serves the next connection, and answers false if there is none.
fn serve_next<K, V: Service<K>, D: Door>(
    alloc: Global,
    service: &mut V,
    keeper: &mut K,
    door: &mut D,
) -> Result<bool, ServeFault>
    requires listens { is_some (D.seen door.old).listens ≡ true }
    requires none_open { (D.seen door.old).is_open ≡ false }
    ensures { ServesNext
        (record { door = D.seen door.old; service = V.seen service.old keeper.old })
        (record { door = D.seen door.new; service = V.seen service.new keeper.new }) result }
{
    match door.accept() {
        Ok(true) => {}
        Ok(false) => return Ok(false),
        Err(Failed) => return Err(ServeFault::DoorFailed),
    }
    let talked = converse(alloc, service, keeper, door);
    door.finish();
    match talked {
        Ok(_) => Ok(true),
        Err(Memory) => Err(ServeFault::Memory),
    }
}

/// Serves so many connections, one after the other, or as many as there are. Each reply is sent before
/// the next request is answered and before the connection is read again. A connection ends when its
/// bytes end, when its last reply closes it, or when a read or a write failed; the next one is then
/// accepted.
pub fn serve<K, V: Service<K>, D: Door>(
    alloc: Global,
    service: &mut V,
    keeper: &mut K,
    door: &mut D,
    connections: u32,
) -> Result<(), ServeFault>
    requires listens { is_some (D.seen door.old).listens ≡ true }
    requires none_open { (D.seen door.old).is_open ≡ false }
    ensures { Serves connections
        (record { door = D.seen door.old; service = V.seen service.old keeper.old })
        (record { door = D.seen door.new; service = V.seen service.new keeper.new }) result }
{
    let mut left = connections;
    while left > 0 {
        match serve_next(alloc, service, keeper, door) {
            Ok(true) => left -= 1,
            Ok(false) => return Ok(()),
            Err(fault) => return Err(fault),
        }
    }
    Ok(())
}
