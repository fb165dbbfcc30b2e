use crate::code::Code;
use crate::day::Hour;
use crate::monitor::MonitorId;
use crate::quals::Quals;

/// The greatest code of a sampling method.
pub const LAST_METHOD: u16 = 999;

/// What was reported for one sample: a value, or the null data code that says why there is none,
/// the qualifier codes, and the method by which it was taken. Ozone is in thousandths of a ppm, PM in
/// tenths of a µg/m3. No value nor verdict reads the method.
#[derive(Clone, Copy, Debug, PartialEq, Eq)]
pub struct Observation {
    pub value: Option<i32>,
    pub null: Option<Code>,
    pub quals: Quals,
    /// The code of the sampling method, 0 to 999; none of an observation that was kept before methods
    /// were.
    pub method: Option<u16>,
}

/// Where an observation stands: its monitor, and the hour at which the sample starts. A sample of 24
/// hours stands at hour 00 of its date.
#[derive(Clone, Copy, Debug, PartialEq, Eq, PartialOrd, Ord)]
pub struct ObsKey {
    pub monitor: MonitorId,
    pub hour: Hour,
}
