//! Under what a load is kept.
ghost use Rattle.std.specs.Prelude.{◌≡◌};
ghost use Rattle.aq_staging.specs.Identity.{identity_of, number_in};

/// Under what a load is kept: its number, from 1 on, and the SHA-256 of its body.
#[derive(Clone, Copy)]
pub struct LoadIdentity {
    pub number: u32,
    pub digest: [u8; 32],
}

impl LoadIdentity {
    /// The identity of a load. The number 0 is that of a load that is not kept, and has none.
    pub fn new(number: u32, digest: [u8; 32]) -> Option<LoadIdentity>
        ensures value { result ≡ identity_of number digest }
        ensures number { number_in result ≡ number }
    {
        (number != 0).then_some(LoadIdentity { number, digest })
    }
}

/// The number in the reply to a load.
pub(crate) fn number_in(identity: Option<LoadIdentity>) -> u32
    ensures { result ≡ number_in identity }
{
    identity.map_or(0, |identity| identity.number)
}
