ghost use Rattle.std.specs.Prelude.{◌≡◌};
ghost use Rattle.vat_trace_lib.specs.Words.{word_of};

/// What the program can be asked to do.
#[derive(Clone, Copy, Debug, PartialEq, Eq, Drop)]
pub enum Word {
    /// To play a script.
    Run,
    /// To say the verdict of a trace.
    Check,
    /// To say what a trace says of each reference.
    Show,
    /// To write a trace in the newer version.
    Upgrade,
}

impl Word {
    /// The word that a text is.
    pub fn of(word: &str) -> Option<Word>
        ensures { result ≡ word_of word.now }
    {
        if word == "run" {
            return Some(Word::Run);
        }
        if word == "check" {
            return Some(Word::Check);
        }
        if word == "show" {
            return Some(Word::Show);
        }
        if word == "upgrade" {
            return Some(Word::Upgrade);
        }
        None
    }
}
