//! The functions run no code: what each ensures is the law.

ghost use Rattle.lovendak_c_desks.specs.Served.{DesksServeWhatIsGiven};

use vat_connections::connections_serve_what_is_given;

/// Whatever is done with a new desk, and whatever bytes its peer sends: it is a run of one vat. Each call that it hands out is the
/// application's own, or is for an object that the peer was given on this desk and has not given back. Each is handed out once. No own
/// call is handed out as ended twice. Once it was handed out that the vat is down, each own call that was made was let go, or was handed
/// out as ended, once.
pub fn desks_serve_what_is_given()
    ensures { DesksServeWhatIsGiven }
{
    connections_serve_what_is_given();
}
