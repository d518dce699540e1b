// The worked lines, computed from the definitions. Nothing runs here: the contracts are the equations.
ghost use Rattle.std.specs.Prelude.{◌≡◌, List, [], ◌∷◌, ◌++◌, map, drop, codes, Ok};
ghost use Rattle.qc_base.specs.Spelling.{spelled_fact};
ghost use Rattle.qc_protocol.specs.Texts.{lines_of};
ghost use Rattle.qc_site.specs.declared.site.SiteFile.TheVariants.{Journal as the_file};
ghost use Rattle.qc_site.specs.Image.{Image};
ghost use Rattle.qc_frame.specs.Frame.{group};
ghost use Rattle.qc_journal.specs.History.{fact_payload};
ghost use Rattle.qc_orders.specs.Orders.{order_of};
ghost use Rattle.qc_machine.specs.History.{by_text, history_of};
ghost use Rattle.qc_machine.specs.Opening.{DamagedAt};
ghost use Rattle.qc_machine.specs.Sites.{ReadsAs, IsSiteOf, as_read};
ghost use Rattle.qc_drill.specs.Headline.{programs_limits, run_out, run_to};
ghost use Rattle.qc_drill.specs.Unopened.{damage_line};
ghost use Rattle.qc_drill.specs.Worked.{made_facts, made_journal, made_log, made_rows, made_end, just_made, made_within, send_and_queues, send_order, queues_order, sent_and_listed, sent_fact, sent_group, sent_journal, cut_journal, untagged_journal, full_and_listed, two_sends_and_queues, two_sent_and_listed, three_tables, three_shown, three_resources, three_held};

use qc_catalogue::the_sample_is_a_catalogue;

/// A send to a site that was just made from the sample catalogue, and a listing: what is read, what is written, and the
/// bytes that the journal then has (docs/FORMATS.md, "Order lines" and "Examples in bytes").
pub fn a_send_is_listed()
    ensures start { (image : Image) → image.journal ≡ made_journal → image.crm_log ≡ made_log → image.rows ≡ made_rows
        → ReadsAs programs_limits image just_made }
    ensures orders { map order_of (lines_of send_and_queues) ≡ Ok send_order ∷ Ok queues_order ∷ [] }
    ensures replies { run_out just_made send_and_queues ≡ sent_and_listed }
    ensures fact { map spelled_fact (drop 1 (run_to just_made send_and_queues).history.facts) ≡ sent_fact ∷ [] }
    ensures group { map (λ fact. group (fact_payload fact)) (drop 1 (run_to just_made send_and_queues).history.facts)
        ≡ sent_group ∷ [] }
    ensures journal { (image : Image) → image.journal ≡ sent_journal → image.crm_log ≡ made_log → image.rows ≡ made_rows
        → IsSiteOf image (run_to just_made send_and_queues) }
{
    the_sample_is_a_catalogue();
}

/// A group without its last byte isn't there (docs/FORMATS.md, "Examples in bytes").
pub fn a_group_that_is_cut_is_closed()
    ensures { (image : Image) → image.journal ≡ cut_journal → image.crm_log ≡ made_log
        → ReadsAs programs_limits image (as_read programs_limits (history_of by_text made_facts) image.rows (record {
          gate =
              1672;
          size = 1736;
        }) made_end) }
{
    the_sample_is_a_catalogue();
}

/// A fact without its tag is damage, at the offset of its entry (docs/FORMATS.md, "Examples in bytes").
pub fn a_fact_without_its_tag_is_damage()
    ensures place { (image : Image) → image.journal ≡ untagged_journal
        → DamagedAt image (record { file = the_file; at = 1677 }) }
    ensures line { damage_line (record { file = the_file; at = 1677 }) ≡ codes "damaged journal at 1677\n" }
{
    the_sample_is_a_catalogue();
}

/// The send takes 64 bytes of the journal, and is refused where one byte of them is missing (docs/RULES.md, "Room").
pub fn a_send_takes_its_room()
    ensures fits { run_out (made_within 1737) send_and_queues ≡ sent_and_listed }
    ensures full { run_out (made_within 1736) send_and_queues ≡ full_and_listed }
{
    the_sample_is_a_catalogue();
}

/// The moment used doesn't fall, a blank line has no reply, a line that is no order is refused by its member at fault,
/// and a last line needs no newline.
pub fn two_sends_are_listed()
    ensures replies { run_out just_made two_sends_and_queues ≡ two_sent_and_listed }
    ensures ended { run_out just_made (two_sends_and_queues ++ 10 ∷ []) ≡ two_sent_and_listed }
{
    the_sample_is_a_catalogue();
}

/// Tables open as the catalogue says: their rows whose amount isn't 0, and the sum.
pub fn tables_are_listed()
    ensures { run_out just_made three_tables ≡ three_shown }
{
    the_sample_is_a_catalogue();
}

/// Outside rows are listed as the site holds them, and right after its making these are the opening amounts.
pub fn outside_rows_are_listed()
    ensures { run_out just_made three_resources ≡ three_held }
{
    the_sample_is_a_catalogue();
}
