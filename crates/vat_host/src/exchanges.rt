ghost use Rattle.std.specs.Prelude.{◌≡◌, ◌==◌, ◌&&◌, MatchBool, length};
ghost use Rattle.vat_host.specs.Hosting.{IsIdle};
ghost use Rattle.vat_host.specs.Exchanging.{Carries, Exchanges};

use crate::host::Host;

/// Hands the messages of two vats to each other, in so many rounds at most: in each, all messages of `a` to `b`, and then all
/// of `b` to `a`. Answers whether anything is left to do at either: a message to send, or an event to tell, that it is down
/// among them.
pub fn exchange(a: &mut Host, b: &mut Host, rounds: usize) -> bool
    ensures exchanged { Exchanges rounds a.old b.old a.new b.new }
    ensures left { MatchBool result (¬ (IsIdle a.new × IsIdle b.new)) (IsIdle a.new × IsIdle b.new) }
{
    go_rounds(a, b, rounds);
    !a.is_idle() || !b.is_idle()
}

// So many rounds, or fewer if there is nothing more to carry.
fn go_rounds(a: &mut Host, b: &mut Host, rounds: usize)
    ensures { Exchanges rounds a.old b.old a.new b.new }
{
    let mut left = rounds;
    while left > 0 {
        if are_quiet(a, b) {
            return;
        }
        carry(a, b);
        carry(b, a);
        left -= 1;
    }
}

// Whether neither has a message for the other.
fn are_quiet(a: &Host, b: &Host) -> bool
    ensures { result ≡ ((length a.now.messages == 0) && (length b.now.messages == 0)) }
{
    !a.has_messages() && !b.has_messages()
}

// Hands all messages of the one to the other.
fn carry(from: &mut Host, to: &mut Host)
    ensures { Carries from.old to.old from.new to.new }
{
    while let Some(message) = from.next_message() {
        to.receive(message);
    }
}
