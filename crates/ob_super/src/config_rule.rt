//! The rules that a config keeps.
ghost use Rattle.std.specs.Prelude.{◌≡◌};
ghost use Rattle.ob_super.specs.RuleWords.{rule_word};

/// Which rule a part of a config breaks.
#[derive(Clone, Copy, PartialEq, Eq, Debug)]
pub enum ConfigRule {
    /// The config is a list of 1 to 64.
    Upstreams,
    /// Each item of the list is an obj.
    Kind,
    /// It has a name of 1 to 32 of a to z and 0 to 9.
    Name,
    /// It has a uri `url` with an http URL without fragment.
    Url,
    /// It has a list `hrefs` of 1 to 2,048.
    Hrefs,
    /// Each item of `hrefs` is a uri of 1 to 1,024 bytes.
    Href,
    /// No text stands twice in `hrefs`.
    HrefTwice,
}

impl ConfigRule {
    /// The rule in a word or two, as `url` or `href twice`.
    pub fn word(self) -> &'static str
        ensures { result.now ≡ rule_word self }
    {
        match self {
            ConfigRule::Upstreams => "upstreams",
            ConfigRule::Kind => "kind",
            ConfigRule::Name => "name",
            ConfigRule::Url => "url",
            ConfigRule::Hrefs => "hrefs",
            ConfigRule::Href => "href",
            ConfigRule::HrefTwice => "href twice",
        }
    }
}
