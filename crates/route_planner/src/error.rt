use fact_kinds::Memory;

/// The reason why no routes were made.
#[derive(Clone, Copy, Debug, PartialEq, Eq)]
pub enum RouteError {
    /// The request was for routes with 0 stops.
    NoStops,
    Memory,
}

impl From<Memory> for RouteError {
    ghost use Rattle.std.specs.Prelude.{◌≡◌};
    ghost use Rattle.route_planner.specs.declared.error.RouteError.TheVariants.{Memory};

    ghost from_gives = { λ _ e. e ≡ Memory };

    fn from(_e: Memory) -> RouteError {
        RouteError::Memory
    }
}
