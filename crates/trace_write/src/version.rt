ghost use Rattle.std.specs.Prelude.{◌≡◌};
ghost use Rattle.trace_write.specs.Values.{version_number};

/// A version of the trace format, as its `head` line says it.
///
/// They differ in the head's number and in one key each of a Return and a Finish: in version 1 both are `release`, in
/// version 2 `releaseParamCaps` and `releaseResultCaps`, as `rpc.capnp` calls them.
#[derive(Clone, Copy, Debug, PartialEq, Eq, Drop)]
pub enum TraceVersion {
    One,
    Two,
}

impl TraceVersion {
    /// The number that its heads say.
    pub fn number(self) -> u64
        ensures { result ≡ version_number self }
    {
        match self {
            TraceVersion::One => 1,
            TraceVersion::Two => 2,
        }
    }
}
