// Which calls of a fake are to fail, by their numbers.
ghost use Rattle.std.specs.Prelude.{◌≡◌};
ghost use Rattle.qc_memsite.specs.Numbers.{is_named, Counted};

// The numbers of the calls that fail, from 1, and how many calls there were.
#[derive(Drop)]
pub(crate) struct Numbers {
    pub(crate) plan: Vec<u32>,
    pub(crate) made: u64,
}

impl Numbers {
    pub(crate) fn over(plan: Vec<u32>) -> Numbers
        ensures plan { result.plan ≡ plan }
        ensures made { result.made ≡ 0 }
    {
        Numbers { plan, made: 0 }
    }

    // Counts a call, and says whether it is to fail.
    pub(crate) fn names_next(&mut self) -> bool
        ensures named { result ≡ is_named self.old }
        ensures counted { Counted self.old self.new }
    {
        let number = self.made.saturating_add(1);
        self.made = number;
        self.plan.iter().any(|named| u64::from(*named) == number)
    }
}
