//! The service: an office, and the keeper in which it stands.
ghost use Rattle.std.specs.Prelude.{◌≤◌, length, IfOk, OnErr};
ghost use Rattle.aq_rules.specs.Limits.{MOST_BYTES};
ghost use Rattle.aq_keeper.specs.Standing.{Standing};
ghost use Rattle.aq_serve.specs.Service.{Answers, Loses};

use aq_base::Memory;
use aq_http::Verb;
use std::alloc::Global;

/// Answers requests over an office, which stands in a keeper that is lent for each request.
pub trait Service<K> {
    /// The office, and what the keeper tells.
    ghost seen: { Self → K → Standing };

    /// The bytes of the reply to a whole request. `close` says that the connection ends after it. A
    /// load that is taken stands in the keeper's tables before this answers. After `Memory` the service
    /// is fit only to be dropped.
    fn answer(
        &mut self,
        alloc: Global,
        keeper: &mut K,
        verb: Verb,
        target: &[u8],
        body: &[u8],
        close: bool,
    ) -> Result<Vec<u8>, Memory>
        requires short { length body.now ≤ MOST_BYTES }
        ensures answered { IfOk result
            (λ reply. Answers verb target.now body.now close reply.items
            (seen self.old keeper.old) (seen self.new keeper.new)) }
        ensures lost { OnErr result
            (Loses verb target.now body.now (seen self.old keeper.old)
            (seen self.new keeper.new)) };
}
