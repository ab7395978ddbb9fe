ghost use Rattle.std.specs.Prelude.{◌≡◌, ◌==◌, IfOk, map};
ghost use Rattle.std.specs.List.{slice_split};
ghost use Rattle.trace_file.specs.Lines.{without_last_empty};

use std::alloc::{AllocError, Global};

/// The texts between newlines.
pub(crate) fn split(alloc: Global, trace: &str) -> Result<Vec<&str>, AllocError>
    ensures { IfOk result (λ texts. map (λ text. text.now) texts.items ≡ slice_split (λ c. c == 10) trace.now) }
{
    trace.split('\n').collect(alloc)
}

/// The lines that the texts between newlines are: what stands behind the last newline is a line if it is something.
pub(crate) fn whole_lines<'a, 't>(texts: &'a [&'t str]) -> &'a [&'t str]
    ensures { map (λ line. line.now) result.now ≡ without_last_empty (map (λ text. text.now) texts.now) }
{
    match texts.split_last() {
        Some((last, before)) => {
            if last.is_empty() {
                return before;
            }
            return texts;
        }
        None => return texts,
    }
}
