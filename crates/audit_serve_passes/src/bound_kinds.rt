ghost use Rattle.std.specs.Prelude.{◌≡◌, ◌↔◌, ◌||◌, ◌==◌, ◌+◌, ℕ, false, IfSome, IsNone};
ghost use Rattle.audit_serve_passes.specs.declared.bound_kinds.TheConstants.{MAX_BOUND_KINDS};
ghost use Rattle.audit_serve_passes.specs.Rights.{is_bound, bound_count, no_kinds};

/// The most kinds of events that are bound to sources.
pub const MAX_BOUND_KINDS: usize = 15;

/// The kinds of events that are bound to sources of their own, at most 15: whoever isn't the source of such a kind may
/// not append it.
#[derive(Clone, Copy, Debug, PartialEq, Eq)]
pub struct BoundKinds {
    kinds: [Option<u32>; MAX_BOUND_KINDS],
}

impl BoundKinds {
    /// No kind.
    pub fn none() -> BoundKinds
        ensures none { result ≡ no_kinds }
        ensures count { bound_count result ≡ 0 }
        ensures free { (kind : ℕ) → is_bound result kind ≡ false }
    {
        BoundKinds {
            kinds: [None; MAX_BOUND_KINDS],
        }
    }

    /// The same with one more kind, or `None` if 15 kinds are bound already.
    pub fn with(self, kind: u32) -> Option<BoundKinds>
        ensures added { IfSome result (λ more. (other : ℕ)
            → is_bound more other ≡ (kind == other || is_bound self other)) }
        ensures counted { IfSome result (λ more. bound_count more ≡ 1 + bound_count self) }
        ensures full { IsNone result ↔ (bound_count self ≡ MAX_BOUND_KINDS) }
    {
        let mut kinds = self.kinds;
        for free in 0..MAX_BOUND_KINDS {
            if kinds[free].is_none() {
                kinds[free] = Some(kind);
                return Some(BoundKinds { kinds });
            }
        }
        None
    }

    /// Whether a kind is bound.
    pub fn contains(&self, kind: u32) -> bool
        ensures { result ≡ is_bound self.now kind }
    {
        self.kinds.contains(&Some(kind))
    }
}
