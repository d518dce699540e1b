// Numbers that look like chance, the same for the same seed.
ghost use Rattle.std.specs.Prelude.{◌<◌, ◌≤◌};

use qc_site::SiteFile;

/// The generator splitmix64.
#[derive(Drop)]
pub struct Dice {
    state: u64,
}

impl Dice {
    /// Begins with this seed.
    pub fn new(seed: u64) -> Dice {
        Dice { state: seed }
    }

    fn next(&mut self) -> u64 {
        self.state = self.state.wrapping_add(0x9e37_79b9_7f4a_7c15);
        let mut mixed = self.state;
        mixed = (mixed ^ (mixed >> 30)).wrapping_mul(0xbf58_476d_1ce4_e5b9);
        mixed = (mixed ^ (mixed >> 27)).wrapping_mul(0x94d0_49bb_1331_11eb);
        mixed ^ (mixed >> 31)
    }

    /// A number from 0 to `most`.
    pub fn up_to(&mut self, most: u64) -> u64
        ensures { result ≤ most }
    {
        let rolled = self.next();
        match most.checked_add(1) {
            Some(sides) => rolled % sides,
            None => rolled,
        }
    }

    /// One of the three files.
    pub fn file(&mut self) -> SiteFile {
        match self.up_to(2) {
            0 => SiteFile::Journal,
            1 => SiteFile::CrmLog,
            _ => SiteFile::Snap,
        }
    }

    /// Fills these bytes.
    pub fn fill(&mut self, bytes: &mut [u8]) {
        for byte in bytes.iter_mut() {
            *byte = self.up_to(255) as u8;
        }
    }
}
