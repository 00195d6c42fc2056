//! Objects put together from their parts.
ghost use Rattle.std.specs.Prelude.{◌≡◌};
ghost use Rattle.ob_site_rules.specs.Build.{nameless};

use ob_object::Obj;

/// The object without its name.
pub fn nameless(mut object: Obj) -> Obj
    ensures { result ≡ nameless object }
{
    match object.put_name(None) {
        Ok(()) => object,
        Err(_name) => unreachable!(),
    }
}
