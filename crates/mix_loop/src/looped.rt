// Sources of a view behind a link in memory.
ghost use Rattle.std.specs.Prelude.{◌≡◌, IfOk, IfErr};
ghost use Rattle.lxp_remote.specs.Remotes.{CameFrom, Remoting, view_of};
ghost use Rattle.lxp_wire.specs.Stream.{sources_of};
ghost use Rattle.mix_reach.specs.Reach.{CameFrom as CameFromReaching, Reaching, reaching_in};
ghost use Rattle.mix_loop.specs.Loops.{IsOpened, StandIn, looped};

use far_keep::Fars;
use lxp_remote::Remote;
use lxp_wire::MemLink;
use mix_reach::Reached;
use std::alloc::Global;
use table_keep::Tables;

/// Puts the sources of a view behind a link in memory, which is asked how many they are and for the root of each: no fill is asked. Where
/// memory runs out, the sources come back.
pub fn open_loop<T: Tables, R: Fars>(
    alloc: Global,
    sources: Reached<T, R>,
) -> Result<Remote<MemLink<Reached<T, R>>>, Reached<T, R>>
    ensures opened { let reaching = reaching_in T.view R.view in IfOk result (λ r. IsOpened (reaching sources)
        (reaching (sources_of r.link.server)) (looped T.view R.view r.link r.peers.items r.fills)) }
    ensures refused { let reaching = reaching_in T.view R.view in IfErr result (λ s. CameFromReaching (reaching sources) (reaching s)) }
    ensures unasked { IfErr result (λ s. s.fills ≡ sources.fills) }
{
    match Remote::open(alloc, MemLink::new(sources)) {
        Ok(remote) => Ok(remote),
        Err(refused) => Err(refused.link.into_sources()),
    }
}

/// The sources behind a link in memory, as they are now. Read through the link, they were stood in for since it was opened.
pub fn close_loop<T: Tables, R: Fars>(remote: Remote<MemLink<Reached<T, R>>>) -> Reached<T, R>
    ensures sources { result ≡ sources_of remote.link.server }
    ensures stands { let now = looped T.view R.view remote.link remote.peers.items remote.fills in
        let b = reaching_in T.view R.view (sources_of remote.link.server) in
        (a mid : Reaching) (old : Remoting) → IsOpened a mid old → CameFrom old now → CameFromReaching mid b
        → StandIn (view_of old) (view_of now) a b }
{
    let sources = remote.into_link().into_sources();
    let fills = sources.fills();
    prove!(fills <= u64::MAX);
    sources
}
