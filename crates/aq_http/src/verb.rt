ghost use Rattle.std.specs.Prelude.{◌≡◌};
ghost use Rattle.aq_http.specs.Head.{verb_of};

/// The method of a request, as far as the routes tell methods apart. Its letters are taken as they are
/// (RFC 9110, section 9.1).
#[derive(Clone, Copy, Debug, PartialEq, Eq)]
pub enum Verb {
    Get,
    Post,
    /// Any other method, which no route has.
    Other,
}

impl Verb {
    /// The verb of a method's name.
    pub(crate) fn of(method: &[u8]) -> Verb
        ensures { result ≡ verb_of method.now }
    {
        match method {
            b"GET" => Verb::Get,
            b"POST" => Verb::Post,
            _ => Verb::Other,
        }
    }
}
