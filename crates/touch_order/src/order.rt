//! The order of touches.

ghost use Rattle.std.specs.Prelude.{◌≡◌, map, OnOk};
ghost use Rattle.hh_term.specs.Touches.{by_site};
ghost use Rattle.last_walk.specs.LastWalk.{touch_of};

use hh_base::value::NoMemory;
use last_walk::touch::Touch;

/// Puts touches in rising site. Those of one site keep their order.
pub fn put_in_order(touches: &mut Vec<Touch>) -> Result<(), NoMemory>
    ensures { OnOk result (map touch_of touches.new.items ≡ by_site (map touch_of touches.old.items)) }
{
    touches.sort_by_key(|touch| touch.site)?;
    Ok(())
}
