//! What is proved of adapters. The functions run no code: what they ensure are the theorems.
ghost use Rattle.peer_adapter.specs.Laws.{CountsOnce, StandsAside};

/// If the peer made no tail call, a message that names each export in one kind and no broken promise is heard as it came by a
/// vat that has room for one answer more. If Finishes go at once, the peer is told each of the vat's as it went, except for a Release
/// that is sent back, and for pointers to capabilities that are not there, which are null.
pub fn stands_aside()
    ensures { StandsAside }
{
    peer_overload::stands_aside();
    peer_broken::stands_aside();
    peer_tail_calls::stands_aside();
    peer_kinds::stands_aside();
    peer_finishes::stands_aside();
}

/// Each count that a peer gives is heard, owed or given back. Of each of its exports, what a message gave and what was
/// owed is the sum of three. These are what the vat hears that it gave, what is owed then, and what is given back at
/// once, by Releases or by the flag of the Return that refuses it. With a message of the vat, what was owed is owed
/// still, or is given back by Releases or by the flag that the peer is told, never by both. What the vat hears with it
/// gives nothing. Of the vat's own exports it is as with `peer_tail_calls::counts_once`.
pub fn counts_once()
    ensures { CountsOnce }
{
    peer_overload::counts_once();
    peer_broken::counts_once();
    peer_tail_calls::counts_once();
    peer_kinds::counts_once();
}
