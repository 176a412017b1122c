// How often the calls of a device were made and have failed.
ghost use Rattle.std.specs.Prelude.{◌≡◌, ◌≤◌, Result, is_err, true, false};

#[derive(Drop)]
pub struct Device {
    pub failing: Vec<u32>,
    pub calls: u32,
    pub starved: u64,
    pub faults: u64,
}

impl Device {
    ghost use Rattle.std.specs.Prelude.{◌≡◌, true, false};
    ghost use Rattle.mem_world.specs.Streams.{Counts, is_listed};
    ghost use Rattle.mem_world.specs.Count.{Raises};

    pub fn new(failing: Vec<u32>) -> Device
        ensures failing { result.failing ≡ failing }
        ensures calls { result.calls ≡ 0 }
        ensures starved { result.starved ≡ 0 }
        ensures faults { result.faults ≡ 0 }
    {
        Device {
            failing,
            calls: 0,
            starved: 0,
            faults: 0,
        }
    }

    // Counts a call, and answers whether it is to fail.
    pub fn fails(&mut self) -> bool
        ensures listed { result ≡ is_listed self.old }
        ensures counts { Counts self.old self.new }
        ensures starved { self.new.starved ≡ self.old.starved }
        ensures fault { result ≡ true → Raises self.old.faults self.new.faults }
        ensures none { result ≡ false → self.new.faults ≡ self.old.faults }
    {
        self.count();
        let fails = self.failing.contains(&self.calls);
        if fails {
            self.fault();
        }
        fails
    }

    // Counts that memory could not grow.
    pub fn starve(&mut self)
        ensures same { self.new.calls ≡ self.old.calls }
        ensures failing { self.new.failing ≡ self.old.failing }
        ensures starved { Raises self.old.starved self.new.starved }
        ensures fault { Raises self.old.faults self.new.faults }
    {
        if self.starved < u64::MAX {
            self.starved += 1;
        }
        self.fault();
    }

    fn count(&mut self)
        ensures counts { Counts self.old self.new }
        ensures starved { self.new.starved ≡ self.old.starved }
        ensures faults { self.new.faults ≡ self.old.faults }
    {
        if self.calls < u32::MAX {
            self.calls += 1;
        }
    }

    fn fault(&mut self)
        ensures calls { self.new.calls ≡ self.old.calls }
        ensures failing { self.new.failing ≡ self.old.failing }
        ensures starved { self.new.starved ≡ self.old.starved }
        ensures fault { Raises self.old.faults self.new.faults }
    {
        if self.faults < u64::MAX {
            self.faults += 1;
        }
    }
}
