//! What is proved of connections. The functions run no code: what they ensure is the theorem.
ghost use Rattle.vat_connection.specs.Laws.{LoadIsBounded, PiecesAreOne};

use capn_fronts::pieces_stand;
use peer_large::contents_are_small;

/// Whatever comes of bytes in two pieces may come of the same bytes in one, so what a vat hears says nothing of how they were
/// cut.
pub fn pieces_are_one()
    ensures { PiecesAreOne }
{
    pieces_stand();
}

/// If what a connection holds of its peer is at most its limit and one frame more, it stays so while the vat is up, whatever comes: in
/// words, of Calls for which no Return was said, and of other frames until all events were told.
pub fn load_is_bounded()
    ensures { LoadIsBounded }
{
    contents_are_small();
}
