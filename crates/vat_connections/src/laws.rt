//! The functions run no code: what each ensures is the law.

ghost use Rattle.vat_connections.specs.Released.{ReleasedAreNotServed};
ghost use Rattle.vat_connections.specs.Served.{ConnectionsServeWhatIsGiven};

use vat_hosts::{hosts_serve_what_is_given, released_are_not_served as hosts_serve_no_released};

/// Whatever is done with a new connection, and whatever bytes its peer sends: it is a run of one vat. Each call that its application is to
/// serve is its own, or is for an object that the peer was given and has not given back. Each is told once. An own call that was made
/// was told as ended, was let go, or is open. None is told as ended twice. Once it is told that the vat is down, none is open, and
/// nothing more is told.
pub fn connections_serve_what_is_given()
    ensures { ConnectionsServeWhatIsGiven }
{
    hosts_serve_what_is_given();
}

/// After a connection told that an object is released, whatever is done with it, and whatever bytes its peer sends: it has no call to
/// that object served, until the application hosts the object again.
pub fn released_are_not_served()
    ensures { ReleasedAreNotServed }
{
    hosts_serve_what_is_given();
    hosts_serve_no_released();
}
