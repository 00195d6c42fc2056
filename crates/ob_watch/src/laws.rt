//! That the marked watches are the watches of the site's definitions.
ghost use Rattle.ob_watch.specs.AsRules.{AllLapse, AsRules};

/// What the calls of this crate make of watches is what the definitions of the whole site say of the watches
/// with flags that they stand for, whatever the tree and the plan; and the watches whose lease has run out may be
/// dropped at the end of a step, since none of its calls minds them.
///
/// Source: oBIX 1.1, chapter 12 (Watches).
pub fn as_the_site_says()
    ensures rules { AsRules }
    ensures lapses { AllLapse }
{}
