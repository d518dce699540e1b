// How many bytes a fact's spelling has.
ghost use Rattle.std.specs.Prelude.{◌≡◌, true, length};
ghost use Rattle.qc_base.specs.Spelling.{spelled_fact, is_fact};

use qc_base::Fact;

/// The length of a fact's spelling in bytes, 1 to 1,048,581; the fact is within its limits (docs/FORMATS.md, "Facts").
#[tactic(auto, using(crate::proofs::Lengths::fact_lengths))]
pub fn size_of_fact(fact: &Fact) -> usize
    requires { is_fact fact.now ≡ true }
    ensures { result ≡ length (spelled_fact fact.now) }
{
    match fact {
        Fact::Catalogue(text) => 5 + text.as_slice().len(),
        Fact::Sent(_, _, recording) => 19 + recording.size(),
        Fact::Played(_, _, _, _) => 26,
        Fact::Failed(_, _, _) => 25,
        Fact::Moved(app, _, _, ids) => 13 + app.as_bytes().len() + 8 * ids.as_slice().len(),
        Fact::Switched(app, _, _) => 11 + app.as_bytes().len(),
    }
}
