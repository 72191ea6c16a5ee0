ghost use Rattle.authority.specs.Spans.{is_span};
ghost use Rattle.std.specs.Prelude.{◌≡◌, true, ◌==◌};

// The addresses from a base up to a top; empty bounds are 0 to 0.
#[derive(Clone, Copy, Debug, PartialEq, Eq)]
pub struct Bounds {
    base: u32,
    top: u32,
    ghost span: { is_span base top ≡ true },
}

impl Bounds {
    ghost use Rattle.authority.specs.BoundsMeet.{bounds_between};

    // The addresses from `from` up to `to`; empty if `from` is not below `to`.
    #[tactic(auto, using(crate::specs::BoundsMeet::same_bounds), unfolding(crate::specs::BoundsMeet::bounds_between))]
    pub fn between(from: u32, to: u32) -> Bounds
        ensures { result ≡ bounds_between from to }
    {
        if from < to {
            Bounds {
                base: from,
                top: to,
            }
        } else {
            Bounds { base: 0, top: 0 }
        }
    }

    pub fn base(self) -> u32
        ensures { result ≡ self.base }
    {
        self.base
    }

    pub fn top(self) -> u32
        ensures { result ≡ self.top }
    {
        self.top
    }

    pub fn is_empty(self) -> bool
        ensures { result ≡ (self.top == 0) }
    {
        self.top == 0
    }
}
