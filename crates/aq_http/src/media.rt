ghost use Rattle.std.specs.Prelude.{◌≡◌};
ghost use Rattle.aq_http.specs.Reply.{guard_lines, media_name};

/// The lines of a page's head that say what it may do.
const PAGE_GUARDS: &str =
    "Content-Security-Policy: default-src 'none'; style-src 'unsafe-inline'; frame-ancestors 'none'; form-action 'none'; base-uri 'none'\r\nX-Content-Type-Options: nosniff\r\n";

/// What the body of a reply is written in.
#[derive(Clone, Copy, Debug, PartialEq, Eq)]
pub enum MediaType {
    Json,
    Csv,
    Plain,
    /// A page. Its head has two lines more, which say what the page may do.
    Html,
}

impl MediaType {
    /// Its name (RFC 9110, section 8.3).
    pub(crate) fn name(self) -> &'static str
        ensures { result.now ≡ media_name self }
    {
        match self {
            MediaType::Json => "application/json",
            MediaType::Csv => "text/csv",
            MediaType::Plain => "text/plain",
            MediaType::Html => "text/html; charset=utf-8",
        }
    }

    /// The lines of a page's head that say what it may do: no script, nothing from elsewhere, no form,
    /// and no frame round it. Other bodies have none.
    pub(crate) fn guard_lines(self) -> &'static str
        ensures { result.now ≡ guard_lines self }
    {
        match self {
            MediaType::Html => PAGE_GUARDS,
            MediaType::Json | MediaType::Csv | MediaType::Plain => "",
        }
    }
}
