// A source's mark: whether it fails, and whether its failing is held.
ghost use Rattle.std.specs.Prelude.{◌≡◌, ◌||◌};
ghost use Rattle.unit.specs.Kind.{clear};
ghost use Rattle.unit.specs.Steps.{marked, ended};

// A source is failing while its last report was judged so. It is held from a failing report that its settings hold until a write
// ends the hold. Its cause stands while either is so.
#[derive(Clone, Copy, PartialEq, Eq, Debug)]
pub struct Mark {
    pub failing: bool,
    pub held: bool,
}

impl Mark {
    // Neither failing nor held. The name says which state it is, as `default` would not.
    pub fn clear() -> Mark
        ensures { result ≡ clear }
    {
        Mark {
            failing: false,
            held: false,
        }
    }

    // The mark after a report that fails or not, and whose failing the settings hold or not.
    pub fn reported(self, fails: bool, latches: bool) -> Mark
        ensures { result ≡ marked fails latches self }
    {
        Mark {
            failing: fails,
            held: (fails && latches) || self.held,
        }
    }

    // The mark after a write that ends its hold or not.
    pub fn ended(self, over: bool) -> Mark
        ensures { result ≡ ended over self }
    {
        Mark {
            held: self.held && !over,
            ..self
        }
    }

    pub fn stands(self) -> bool
        ensures { result ≡ (self.failing || self.held) }
    {
        self.failing || self.held
    }
}
