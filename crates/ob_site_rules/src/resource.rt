//! What a path names.
use ob_object::Obj;
use ob_values::Text;

/// What a path names: a computed object, an op or a feed that roles derive, or a node with what it shows.
/// An alarm is told by its number.
#[derive(Drop)]
pub enum Resource {
    /// The About object.
    About,
    /// The op that takes a batch.
    Batch,
    /// The watch service.
    Service,
    /// The op of the watch service that makes a watch.
    Make,
    /// The alarm of this number.
    AlarmAt(u64),
    /// The op that acknowledges the alarm of this number.
    AckOf(u64),
    /// The op of the writable point at this path.
    WritePointOf(Text),
    /// The op of the history at this path.
    QueryOf(Text),
    /// The feed of the history at this path.
    FeedOf(Text),
    /// The op of the alarm subject that asks for alarms.
    AlarmQuery,
    /// The feed of the alarm subject.
    AlarmFeed,
    /// A node, as it shows itself.
    Node(Obj),
}
