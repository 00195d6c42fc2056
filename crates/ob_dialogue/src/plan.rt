//! What a client is to do.
ghost use Rattle.std.specs.Prelude.{◌≡◌};

use ob_href::Base;
use ob_values::Text;
use std::marker::Model;

/// The hrefs that are watched, seen as the list of them: what room it has isn't told.
#[derive(Drop)]
pub struct Hrefs {
    items: Vec<Text>,
}

impl Model for Hrefs {
    ghost use Rattle.std.specs.Prelude.{List, ℕ};

    ghost Value = { List (List ℕ) };

    ghost view = { λ h. h.items.items };
}

impl Hrefs {
    /// These hrefs, in their order.
    pub fn of(items: Vec<Text>) -> Hrefs
        ensures { result ≡ items.items }
    {
        Hrefs { items }
    }

    /// The hrefs, in their order.
    pub fn as_slice(&self) -> &[Text]
        ensures { result.now ≡ self.now }
    {
        self.items.as_slice()
    }
}

/// What is watched.
#[derive(Drop)]
pub enum Topic {
    /// These hrefs; what is held is printed.
    Watch {
        hrefs: Hrefs,
    },
    /// The feed of an alarm subject; the board of its events is printed. The alarm of the href `ack`, if there is one,
    /// is acknowledged after the add, as `user`.
    Console {
        subject: Text,
        ack: Option<Text>,
        user: Text,
    },
}

/// What a client is to do: the URL of a lobby, what is watched, how often it is polled, and how many broken polls are
/// mended in all.
#[derive(Drop)]
pub struct DialoguePlan {
    pub url: Base,
    pub topic: Topic,
    pub polls: u64,
    pub retries: u64,
}
