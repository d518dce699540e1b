// What holds of recovered sites. Nothing runs here: the contracts are the laws.
ghost use Rattle.std.specs.Prelude.{◌≡◌, ◌⊎◌, List};
ghost use Rattle.qc_base.specs.declared.fact.Fact.{Fact};
ghost use Rattle.qc_base.specs.declared.log_line.LogLine.{LogLine};
ghost use Rattle.qc_site.specs.Image.{Image};
ghost use Rattle.qc_machine.specs.History.{by_text};
ghost use Rattle.qc_frame.specs.declared.error.Damage.{Damage};
ghost use Rattle.qc_machine.specs.declared.error.OpenError.{OpenError};
ghost use Rattle.qc_recovery.specs.Calls.{GoesOnRecovered, WhyNot};
ghost use Rattle.qc_recovery.specs.Stands.{Spells, StandsFor, IsRecovered};

use crm_recovery::{a_legal_log_is_not_damaged, nothing_is_left_to_finish};
use qc_machine::{OpenError, a_recovered_site_is_sound, where_all_is_done_rows_are_settled};

/// Where a site stood for a history, a recovery leaves it standing for the same one: no attempt is unfinished, and each
/// outside row is as the history settles it.
pub fn a_recovery_keeps_the_history()
    ensures { (before now : Image) (facts : List Fact) (lines : List LogLine) → GoesOnRecovered facts lines before now
        → (own : List Fact) → StandsFor by_text before own → IsRecovered now own }
{
    nothing_is_left_to_finish();
    a_recovered_site_is_sound();
    where_all_is_done_rows_are_settled();
}

/// A site that spells a legal history, and beside it a legal log, is refused for nothing but a fault or want of memory.
/// So is any site for no more than one cause beside these: one without a catalogue isn't damaged.
pub fn a_site_that_stands_is_not_refused()
    ensures stands { (image : Image) (facts : List Fact) (log : List (List LogLine)) → Spells by_text image facts log
        → (error : OpenError) → WhyNot image error
        → (error ≡ OpenError.SiteFault) ⊎ (error ≡ OpenError.NoMemory) }
    ensures one_cause { (image : Image) (damage : Damage) → WhyNot image OpenError.NoCatalogue
        → ¬ WhyNot image (OpenError.Damaged damage) }
{
    a_legal_log_is_not_damaged();
}
