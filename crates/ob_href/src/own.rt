//! Texts that are paths as they stand.
ghost use Rattle.std.specs.Prelude.{◌≡◌, ◌==◌, IsTrue, Ok};
ghost use Rattle.url.specs.Ascii.{slash};
ghost use Rattle.ob_href.specs.Href as spec;
ghost use Rattle.ob_href.specs.Href.{IsBase, IsOwnPath, resolved_path, located_path};

use url::Url;

/// Whether the text is known, by itself alone, to be the path that `url` gives for it against the base.
pub(crate) fn stays(_base: &Url, text: &str) -> bool
    requires { IsBase _base.now }
    ensures own { IsTrue result → IsOwnPath text.now }
    ensures resolved { IsTrue result → resolved_path _base.now text.now ≡ Ok text.now }
    ensures located { IsTrue result → located_path _base.now text.now ≡ Ok text.now }
{
    is_own_path(text)
}

/// Whether the text is of slashes and unreserved characters, begins with a slash, and has no segment that begins with a dot and
/// none that is empty but the last: a path as each URL of the web would write it.
///
/// Sources: RFC 3986, section 2.3; the URL Standard, section 4.4.
fn is_own_path(text: &str) -> bool
    ensures { IsTrue result → IsOwnPath text.now }
{
    let [b'/', path @ ..] = text.as_bytes() else {
        return false;
    };
    let mut last = b'/';
    for byte in path {
        if !may_follow(last, *byte) {
            return false;
        }
        last = *byte;
    }
    true
}

/// Whether such a path may have the byte behind the last one.
fn may_follow(last: u8, byte: u8) -> bool
    ensures { result ≡ spec.may_follow (last == slash) byte }
{
    let behind_slash = last == b'/';
    is_unreserved(byte) && !(behind_slash && byte == b'.') || byte == b'/' && !behind_slash
}

fn is_unreserved(byte: u8) -> bool
    ensures { result ≡ spec.is_unreserved byte }
{
    byte.is_ascii_alphanumeric() || byte == b'-' || byte == b'.' || byte == b'_' || byte == b'~'
}
