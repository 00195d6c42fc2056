//! What is followed.
ghost use Rattle.std.specs.Prelude.{◌≡◌, true, false};
ghost use Rattle.ob_super.specs.Upstreams.{is_name};

use crate::asking::Watch;
use ob_asking::Place;
use ob_client::Session;
use ob_values::Text;

/// A server that is followed: its name, its lobby, and the hrefs that are watched.
pub(crate) struct Upstream {
    pub(crate) name: Text,
    pub(crate) lobby: Place,
    pub(crate) hrefs: Vec<Text>,
    ghost named: { is_name name ≡ true },
}

impl Drop for Upstream {
    // By one call for each part.
    fn drop(self) {
        let Upstream { name, lobby, hrefs } = self;
        drop(name);
        drop(lobby);
        drop(hrefs);
    }
}

/// A link to an upstream that is up, and what is held over it: its last call was answered, and no reply was lost.
#[derive(Drop)]
pub(crate) struct Live<L> {
    pub(crate) session: Session<L>,
    pub(crate) watch: Watch,
    ghost alive: { session.is_dead ≡ false },
    ghost fresh: { watch.mirror.stale ≡ false },
}

/// An upstream: up where it has a link, else down.
#[derive(Drop)]
pub(crate) struct Followed<L> {
    pub(crate) upstream: Upstream,
    /// How many milliseconds a poll may take, a dial with all that then opens a watch, and a PUT that is sent on.
    pub(crate) wait_ms: u32,
    /// Whether it waits for a dial in this round.
    pub(crate) waits: bool,
    /// The number of the round in which its last dial left it down, the first being 1; 0 where that brought it up, or there was none.
    pub(crate) failed: u64,
    pub(crate) live: Option<Live<L>>,
}
