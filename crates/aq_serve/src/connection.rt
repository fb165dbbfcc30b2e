//! One connection, from where it was accepted to its end.
ghost use Rattle.std.specs.Prelude.{◌≡◌, ◌<◌, true, [], length};
ghost use Rattle.aq_serve.specs.Talking.{Talks};

use crate::ending::End;
use crate::limits::PIECE;
use crate::service::Service;
use crate::turn::take_turn;
use crate::unanswered::Unanswered;
use aq_base::Memory;
use aq_outside::Door;
use std::alloc::Global;

/// Serves request after request, until the connection has ended.
fn talk<K, V: Service<K>, D: Door>(
    alloc: Global,
    service: &mut V,
    keeper: &mut K,
    door: &mut D,
    piece: &mut [u8],
    input: &mut Unanswered,
) -> Result<End, Memory>
    requires open { (D.seen door.old).is_open ≡ true }
    requires room { 0 < length piece.old }
    ensures { Talks 0 (record { door = D.seen door.old; service = V.seen service.old keeper.old })
        (record { door = D.seen door.new; service = V.seen service.new keeper.new })
        input.old result }
{
    let mut served = 0;
    'requests: loop {
        match take_turn(alloc, service, keeper, door, piece, input, served) {
            Ok(None) => served += 1,
            Ok(Some(end)) => return Ok(end),
            Err(Memory) => return Err(Memory),
        }
    }
}

/// Serves the accepted connection.
pub(crate) fn converse<K, V: Service<K>, D: Door>(
    alloc: Global,
    service: &mut V,
    keeper: &mut K,
    door: &mut D,
) -> Result<End, Memory>
    requires open { (D.seen door.old).is_open ≡ true }
    ensures { Talks 0 (record { door = D.seen door.old; service = V.seen service.old keeper.old })
        (record { door = D.seen door.new; service = V.seen service.new keeper.new }) [] result }
{
    let mut piece = match vec![in alloc; 0; PIECE] {
        Ok(piece) => piece,
        Err(_) => return Err(Memory),
    };
    let mut input = Unanswered::new(alloc);
    talk(alloc, service, keeper, door, &mut piece, &mut input)
}
