//! The calls of one kind at a desk, counted, with those that are to fail and the faults so far.
ghost use Rattle.std.specs.Prelude.{◌≡◌, ◌↔◌, ◌+◌, ◌≤◌, IsTrue};
ghost use Rattle.tg_base.specs.Calls.{counted, IsToFail};

#[derive(Drop)]
pub(crate) struct Calls {
    failing: Vec<u64>,
    made: u64,
    faults: u64,
}

impl Calls {
    pub(crate) fn new(failing: Vec<u64>) -> Calls
        ensures { result ≡ record { failing = failing; made = 0; faults = 0 } }
    {
        Calls {
            failing,
            made: 0,
            faults: 0,
        }
    }

    /// Counts a call, and says whether it is to fail.
    pub(crate) fn next_fails(&mut self) -> bool
        ensures fails { IsTrue result ↔ IsToFail self.old.failing.items (self.old.made + 1) }
        ensures made { self.new ≡ record self.old { made = counted self.old.made } }
    {
        match self.made.checked_add(1) {
            Some(number) => {
                self.made = number;
                self.failing.contains(&number)
            }
            None => true,
        }
    }

    pub(crate) fn count_fault(&mut self)
        ensures counted { self.new ≡ record self.old { faults = counted self.old.faults } }
        ensures grows { self.old.faults ≤ self.new.faults }
    {
        self.faults = self.faults.saturating_add(1);
    }
}
