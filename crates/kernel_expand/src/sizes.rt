//! The counted sizes of an expansion.

ghost use Rattle.std.specs.Prelude.{◌≡◌, ◌+◌, Some, IfOk, map};
ghost use Rattle.host_expr.specs.Expression.{expression_of};
ghost use Rattle.host_expr.specs.Measures.{size_of_expression};
ghost use Rattle.kernel_expand.specs.Measures.{counted, leaf, around, both, looped, trapped};

/// The counted sizes of a kernel statement. Each number stands at 18446744073709551615 where it is larger.
#[derive(Clone, Copy, PartialEq, Eq, Debug)]
pub struct Sizes {
    pub size: u64,
    pub copied: u64,
    pub height: u64,
    pub traps: u64,
    pub sites: u64,
}

impl Sizes {
    /// A node without parts, whose expressions weigh this much.
    pub fn leaf(weight: u64) -> Sizes
        ensures { result ≡ leaf 0 weight }
    {
        Sizes {
            size: weight.saturating_add(1),
            copied: weight.saturating_add(1),
            height: 1,
            traps: 0,
            sites: 0,
        }
    }

    /// An async site, whose arguments and handlers weigh this much.
    pub fn site(weight: u64) -> Sizes
        ensures { result ≡ leaf 1 weight }
    {
        Sizes {
            sites: 1,
            ..Sizes::leaf(weight)
        }
    }

    /// A node round this part.
    pub fn around(self, weight: u64) -> Sizes
        ensures { result ≡ around weight self }
    {
        let own = weight.saturating_add(1);
        Sizes {
            size: self.size.saturating_add(own),
            copied: self.copied.saturating_add(own),
            height: self.height.saturating_add(1),
            ..self
        }
    }

    /// A node of these two parts.
    pub fn both(self, other: Sizes, weight: u64) -> Sizes
        ensures { result ≡ both weight self other }
    {
        let own = weight.saturating_add(1);
        Sizes {
            size: self.size.saturating_add(other.size).saturating_add(own),
            copied: self.copied.saturating_add(other.copied).saturating_add(own),
            height: self.height.max(other.height).saturating_add(1),
            traps: self.traps.max(other.traps),
            sites: self.sites.saturating_add(other.sites),
        }
    }

    /// A loop of this body.
    pub fn looped(self) -> Sizes
        ensures { result ≡ looped self }
    {
        Sizes {
            size: self.size.saturating_add(1),
            copied: self.copied.saturating_mul(2).saturating_add(2),
            height: self.height.saturating_add(2),
            ..self
        }
    }

    /// A trap of this body.
    pub fn trapped(self) -> Sizes
        ensures { result ≡ trapped self }
    {
        Sizes {
            size: self.size.saturating_add(1),
            copied: self.copied.saturating_add(1),
            height: self.height.saturating_add(1),
            traps: self.traps.saturating_add(1),
            ..self
        }
    }
}
