//! What the program is asked for.
ghost use Rattle.std.specs.Prelude.{◌≡◌, false};
ghost use Rattle.rpc_dump_lib.specs.Words.{asked};

/// How a conversation is read, and what is said of it.
#[derive(Clone, Copy, Debug, PartialEq, Eq, Drop)]
pub struct Options {
    /// A frame a line, in hexadecimal, each by itself; else one stream of frames.
    pub hex: bool,
    /// With each payload its tree.
    pub payloads: bool,
}

impl Options {
    /// One stream of frames, payloads as bytes alone.
    pub fn new() -> Options
        ensures stream { result.hex ≡ false }
        ensures bytes { result.payloads ≡ false }
    {
        Options {
            hex: false,
            payloads: false,
        }
    }

    /// With what the word asks for, `--hex` or `--payloads`. `None` for another word.
    pub fn with(self, word: &str) -> Option<Options>
        ensures { result ≡ asked self word.now }
    {
        if word == "--hex" {
            return Some(Options {
                hex: true,
                payloads: self.payloads,
            });
        }
        if word == "--payloads" {
            return Some(Options {
                hex: self.hex,
                payloads: true,
            });
        }
        None
    }
}
