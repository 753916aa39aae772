ghost use Rattle.std.specs.Prelude.{◌≤◌};

/// The numbers from `begin` on and below `end`.
#[derive(Clone, Copy, Debug, PartialEq, Eq)]
pub struct Range {
    pub begin: u32,
    pub end: u32,
    ghost ordered: { begin ≤ end },
}
