ghost use Rattle.std.specs.Prelude.{◌≡◌};
ghost use Rattle.hr_shelf.specs.Memory.{is_listed, raised};

use hr_base::Seq;

/// The number of calls that were made, and the numbers of those that are to fail, the first call being 1.
#[derive(Debug, Drop)]
pub(crate) struct Calls {
    pub made: u64,
    pub failing: Seq<u32>,
}

impl Calls {
    /// Counts a call, and answers whether it is to fail.
    pub fn count(&mut self) -> bool
        ensures fails { result ≡ is_listed self.old.failing self.old.made }
        ensures counted { self.new ≡ record self.old { made = raised self.old.made } }
    {
        let number = self.made.saturating_add(1);
        self.made = number;
        self.failing
            .as_slice()
            .iter()
            .any(|listed| u64::from(*listed) == number)
    }
}
