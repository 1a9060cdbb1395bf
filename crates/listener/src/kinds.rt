// What kind of page a file is, by its name.
ghost use Rattle.std.specs.Prelude.{◌≡◌};
ghost use Rattle.std.specs.List.{list_all};
ghost use Rattle.listener.specs.Kinds.{ends, is_letter, kind_by, kind_of, media_type};

/// What kind of page a file is.
#[derive(Clone, Copy, Debug, PartialEq, Eq)]
pub enum Kind {
    Html,
    Script,
    Style,
    Svg,
    Png,
    Icon,
    Json,
    Manifest,
}

impl Kind {
    /// The kind of the page of this name: small letters, digits, `-` and `.`, with an ending that is known.
    pub fn of(name: &str) -> Option<Kind>
        ensures { result ≡ kind_of name.now }
    {
        if has_letters(name.as_bytes()) {
            by_ending(name.as_bytes())
        } else {
            None
        }
    }

    /// The value of `Content-Type`.
    pub fn media_type(self) -> &'static str
        ensures { result.now ≡ media_type self }
    {
        match self {
            Kind::Html => "text/html; charset=utf-8",
            Kind::Script => "text/javascript; charset=utf-8",
            Kind::Style => "text/css; charset=utf-8",
            Kind::Svg => "image/svg+xml",
            Kind::Png => "image/png",
            Kind::Icon => "image/x-icon",
            Kind::Json => "application/json",
            Kind::Manifest => "application/manifest+json",
        }
    }
}

fn has_letters(name: &[u8]) -> bool
    ensures { result ≡ list_all is_letter name.now }
{
    name.iter().all(|byte| is_letter(*byte))
}

fn is_letter(byte: u8) -> bool
    ensures { result ≡ is_letter byte }
{
    (byte >= b'a' && byte <= b'z')
        || ((byte >= b'0' && byte <= b'9') || (byte == b'-' || byte == b'.'))
}

fn by_ending(name: &[u8]) -> Option<Kind>
    ensures { result ≡ kind_by name.now }
{
    if ends(name, b".html") {
        Some(Kind::Html)
    } else if ends(name, b".js") {
        Some(Kind::Script)
    } else if ends(name, b".css") {
        Some(Kind::Style)
    } else if ends(name, b".svg") {
        Some(Kind::Svg)
    } else if ends(name, b".png") {
        Some(Kind::Png)
    } else if ends(name, b".ico") {
        Some(Kind::Icon)
    } else if ends(name, b".json") {
        Some(Kind::Json)
    } else if ends(name, b".webmanifest") {
        Some(Kind::Manifest)
    } else {
        None
    }
}

fn ends(name: &[u8], ending: &[u8]) -> bool
    ensures { result ≡ ends name.now ending.now }
{
    name.ends_with(ending)
}
