use audit_serve_passes::{Allowance, Demand};

/// What limits the requests that feeding takes.
#[derive(Clone, Copy)]
pub(crate) enum Limit {
    /// Nothing.
    Unlimited,
    /// This allowance.
    Within(Allowance),
}

impl Limit {
    ghost use Rattle.std.specs.Prelude.{◌≡◌};
    ghost use Rattle.audit_server.specs.Limit.{allowance_left, limit_admits, limit_after};

    /// Whether a request with this demand is taken.
    pub(crate) fn admits(self, demand: Demand) -> bool
        ensures { result ≡ limit_admits self demand }
    {
        match self {
            Limit::Unlimited => true,
            Limit::Within(allowance) => allowance.admits(demand),
        }
    }

    /// What is left of the allowance that it was made of.
    pub(crate) fn left(self, allowance: Allowance) -> Allowance
        ensures { result ≡ allowance_left allowance self }
    {
        match self {
            Limit::Unlimited => allowance,
            Limit::Within(left) => left,
        }
    }

    /// The limit after a request with this demand was taken.
    pub(crate) fn after(self, demand: Demand) -> Limit
        ensures { result ≡ limit_after demand self }
    {
        match self {
            Limit::Unlimited => Limit::Unlimited,
            Limit::Within(allowance) => Limit::Within(allowance.spent(demand)),
        }
    }
}
