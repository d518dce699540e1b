// The first word of a step.
ghost use Rattle.std.specs.Prelude.{◌≡◌};
ghost use Rattle.qc_script.specs.Lines.{verb_of};

/// Which step a line has.
#[derive(Clone, Copy, Debug, PartialEq, Eq)]
pub enum Verb {
    Need,
    When,
    Add,
    Sub,
    Set,
    Move,
    Out,
    Retract,
    Fail,
    Abort,
}

/// The step that a word begins.
pub fn verb_of(word: &[u8]) -> Option<Verb>
    ensures { result ≡ verb_of word.now }
{
    if word == b"retract".as_slice() {
        return Some(Verb::Retract);
    }
    match word {
        b"need" => Some(Verb::Need),
        b"when" => Some(Verb::When),
        b"add" => Some(Verb::Add),
        b"sub" => Some(Verb::Sub),
        b"set" => Some(Verb::Set),
        b"move" => Some(Verb::Move),
        b"out" => Some(Verb::Out),
        b"fail" => Some(Verb::Fail),
        b"abort" => Some(Verb::Abort),
        _ => None,
    }
}
