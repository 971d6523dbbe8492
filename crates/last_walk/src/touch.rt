//! What a reaction did to async instances.

ghost use Rattle.std.specs.Prelude.{◌≡◌, map};
ghost use Rattle.last_walk.specs.LastWalk.{nothing_touched, stopped_from, touch_of};

use hh_base::value::Values;

/// What a reaction did to one async instance: it started it with these arguments, it used an answer that was
/// not its last, ended it with its last one, held it, resumed it; and whether it runs after the reaction. The
/// id is 0 for one that was started and does not run after.
#[derive(Drop)]
pub struct Touch {
    pub site: u32,
    pub id: u64,
    pub started: Option<Values>,
    pub used: bool,
    pub ended: bool,
    pub held: bool,
    pub resumed: bool,
    pub runs_after: bool,
}

impl Touch {
    /// Nothing was done to the instance, which does not run after.
    pub fn of(site: u32, id: u64) -> Touch
        ensures { touch_of result ≡ nothing_touched site id }
    {
        Touch {
            site,
            id,
            started: None,
            used: false,
            ended: false,
            held: false,
            resumed: false,
            runs_after: false,
        }
    }
}

/// The instances of the touches from this place on do not run after.
pub fn stop_from(from: usize, touches: &mut Vec<Touch>)
    ensures { map touch_of touches.new.items ≡ stopped_from from (map touch_of touches.old.items) }
{
    for at in from..touches.len() {
        touches[at].runs_after = false;
    }
}
