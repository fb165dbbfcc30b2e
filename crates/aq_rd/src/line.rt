use aq_base::{Duration, Hour, MonitorId, Observation};

/// What an RD line asks for.
#[derive(Clone, Copy, Debug, PartialEq, Eq)]
pub enum RdLine {
    /// An observation to be inserted, or updated if `update` is true. What a line spells has a method,
    /// 0 to 999.
    Put {
        update: bool,
        monitor: MonitorId,
        duration: Duration,
        hour: Hour,
        content: Observation,
    },
    /// An observation to be deleted.
    Delete {
        monitor: MonitorId,
        hour: Hour,
    },
}
