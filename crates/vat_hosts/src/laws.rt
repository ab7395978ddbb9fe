//! The functions run no code: what each ensures is the law.

ghost use Rattle.vat_hosts.specs.Cancelled.{CancelledAreTold};
ghost use Rattle.vat_hosts.specs.Exchanges.{ExchangesHand};
ghost use Rattle.vat_hosts.specs.Released.{ReleasedAreNotServed};
ghost use Rattle.vat_hosts.specs.Served.{HostsServeWhatIsGiven};
ghost use Rattle.vat_hosts.specs.Worlds.{HostsAreWorlds};

use laws_authority::{all_at_most_once, authority_is_given, authority_is_kept};
use laws_nodes::outcomes_have_sources;
use laws_released::released_stays;
use laws_sound::every_run_is_sound;
use laws_steps::nodes_are_there;
use laws_tasks::steps_keep_tasks;

/// Whatever is done with two new hosts of level 1, if the messages of each reach the other in order: it is a run of two vats in one
/// world, of which all holds that is promised of runs.
pub fn hosts_are_worlds()
    ensures { HostsAreWorlds }
{
    every_run_is_sound();
}

/// What `exchange` does with two hosts is so many messages that are taken from the one and handed to the other.
pub fn exchange_hands_over()
    ensures { ExchangesHand }
{}

/// Whatever is done with a new host, and whatever its peer sends: it is a run of one vat, and what its application is told of calls is
/// what the run tells. Each call that it is to serve is its own, or is for an object that the peer was given and has not given back. No
/// call is served twice, and no own call ends twice.
pub fn hosts_serve_what_is_given()
    ensures { HostsServeWhatIsGiven }
{
    authority_is_given();
    authority_is_kept();
    all_at_most_once();
}

/// After a host told that an object is released, whatever is done with it, and whatever its peer sends: it has no call to that object
/// served, until the application hosts the object again.
pub fn released_are_not_served()
    ensures { ReleasedAreNotServed }
{
    released_stays();
}

/// Whatever is done with a new host, and whatever its peer sends: it tells each task of the peer that is cancelled, while its vat is up,
/// and none twice. So of an idle host whose vat is up each task that is cancelled was told once.
pub fn cancelled_are_told()
    ensures { CancelledAreTold }
{
    steps_keep_tasks();
    outcomes_have_sources();
    nodes_are_there();
}
