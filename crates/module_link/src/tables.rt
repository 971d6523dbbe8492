//! Tables of names, each with the place at which it stands first.

ghost use Rattle.std.specs.Prelude.{◌≡◌, ℕ, List, IfOk, map};
ghost use Rattle.std.specs.Borrow.{Bor};
ghost use Rattle.indexmap.specs.IndexMap.{get_by_text};
ghost use Rattle.link_faults.specs.Named.{place_of};

use hh_base::memory::NoMemory;
use hh_base::name::Name;
use indexmap::IndexMap;
use std::alloc::Global;

/// More names than this have no places.
pub const MOST_NAMES: usize = 1 << 32;

/// Where each of these names stands first.
pub fn first_places(alloc: Global, names: &[&Name]) -> Result<IndexMap<String, u32>, NoMemory>
    ensures { IfOk result (λ t. (n : List ℕ) → get_by_text t n ≡ place_of (map (λ (m : Bor (List ℕ)). m.now)
        names.now) n) }
{
    if names.len() > MOST_NAMES {
        return Err(NoMemory);
    }
    let mut places = IndexMap::new(alloc);
    'names: for at in 0..names.len() {
        let name = names[at].as_str();
        if places.get(name).is_none() {
            let key = String::from_str(alloc, name)?;
            places.insert(key, at as u32)?;
        }
    }
    Ok(places)
}
