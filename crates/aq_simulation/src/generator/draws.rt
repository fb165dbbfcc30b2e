//! Numbers drawn by a linear congruential generator.
ghost use Rattle.std.specs.Prelude.{◌≡◌, ◌≤◌, ◌<◌, ◌+◌, ◌^◌};
ghost use Rattle.aq_rules.specs.Shown.Generator.{next_state, drawn, observed};

use aq_base::{Code, Observation, Quals};

const FACTOR: u64 = 6_364_136_223_846_793_005;

const STEP: u64 = 1_442_695_040_888_963_407;

// The lower bits of the state are left out: they come again too soon.
const LOW_BITS: u32 = 33;

/// Where the draws of a load stand.
#[derive(Clone, Copy, Debug)]
pub(crate) struct Draws {
    pub(crate) state: u64,
}

impl Draws {
    /// A number below `count`, from the next state.
    fn draw(&mut self, count: u16) -> u16
        requires { 1 ≤ count }
        ensures state { self.new.state ≡ next_state self.old.state }
        ensures value { result ≡ drawn self.new.state count }
    {
        self.state = self.state.wrapping_mul(FACTOR).wrapping_add(STEP);
        (self.state / 2u64.pow(LOW_BITS) % u64::from(count)) as u16
    }

    /// What was observed: one sample in twenty has the null code AN, and the others one of `count`
    /// values from the least on.
    pub(crate) fn observation(&mut self, least: u16, count: u16) -> Observation
        requires { 1 ≤ count }
        ensures content { result ≡ (observed least count (next_state self.old.state)).content }
        ensures state { self.new.state ≡ (observed least count (next_state self.old.state)).state }
    {
        let (value, null) = if self.draw(20) == 0 {
            (
                None,
                Some(Code {
                    first: b'A',
                    second: b'N',
                }),
            )
        } else {
            (Some(i32::from(least) + i32::from(self.draw(count))), None)
        };
        Observation {
            value,
            null,
            quals: Quals::new(),
            method: Some(0),
        }
    }
}
