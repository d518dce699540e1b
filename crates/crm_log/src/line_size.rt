// How many bytes a line's spelling has.
ghost use Rattle.std.specs.Prelude.{◌≡◌, ◌≤◌, true, length};
ghost use Rattle.qc_base.specs.Spelling.{spelled_line, is_line};

use qc_base::LogLine;

/// The length of a line's spelling in bytes, 9 to 128; the line is within its limits (docs/FORMATS.md, "Log lines").
#[tactic(auto, using(crate::proofs::Lengths::line_lengths))]
pub fn size_of_line(line: &LogLine) -> usize
    requires { is_line line.now ≡ true }
    ensures size { result ≡ length (spelled_line line.now) }
    ensures bounds { (9 ≤ result) × (result ≤ 128) }
{
    match line {
        LogLine::Opened(_, _) => 17,
        LogLine::Registered(_, resource, _) => 11 + resource.as_bytes().len(),
        LogLine::Written(_, resource, entry) => {
            32 + resource.as_bytes().len() + entry.key.as_bytes().len()
        }
        LogLine::Forgot(_, resource, _) => 14 + resource.as_bytes().len(),
        LogLine::Done(_) => 9,
    }
}
