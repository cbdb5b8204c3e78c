// A link to sources in the same memory.
ghost use Rattle.std.specs.Prelude.{◌≡◌, [], None};
ghost use Rattle.lxp_wire.specs.Stream.{stream_of};

use crate::link::{Link, LinkFault};
use crate::server::Server;
use lxp_core::Weighed;
use std::alloc::Global;

/// A link to sources in the same memory, which it tells.
#[derive(Drop)]
pub struct MemLink<S> {
    server: Server<S>,
    replies: u64,
    last: Option<Vec<u8>>,
    ghost whole: { (stream_of server).begun ≡ [] },
    ghost good: { (stream_of server).bad ≡ None },
}

impl<S> MemLink<S> {
    ghost use Rattle.std.specs.Prelude.{◌≡◌};
    ghost use Rattle.lxp_wire.specs.Stream.{sources_of};

    /// A link to sources of which nothing was asked by it.
    pub fn new(s: S) -> MemLink<S>
        ensures sources { sources_of result.server ≡ s }
        ensures replies { result.replies ≡ 0 }
    {
        MemLink {
            server: Server::new(s),
            replies: 0,
            last: None,
        }
    }

    /// The sources, as they are now.
    pub fn into_sources(self) -> S
        ensures { result ≡ sources_of self.server }
    {
        self.server.into_sources()
    }
}

impl<S: Weighed> Link for MemLink<S> {
    ghost use Rattle.std.specs.Prelude.{◌≡◌, ◌≤◌, true, length};
    ghost use Rattle.lxp_wire.specs.Stream.{sources_of};
    ghost use Rattle.lxp_wire.specs.MemLinks.{memory_view, same_count, later_count, came_keeps};

    ghost view = { λ l. memory_view (S.view (sources_of l.server)) l.replies l.last };

    ghost came_from = { λ old new. S.came_from (sources_of old.server) (sources_of new.server) × (old.replies ≤ new.replies) };

    fn ask(&mut self, alloc: Global, request: &[u8]) -> Result<Vec<u8>, LinkFault> {
        let Ok(fed) = self.server.feed(alloc, request) else {
            return Err(LinkFault::OutOfMemory);
        };
        let Ok(last) = Vec::from_slice(alloc, &fed.replies) else {
            return Err(LinkFault::OutOfMemory);
        };
        self.replies = self.replies.saturating_add(1);
        self.last = Some(last);
        Ok(fed.replies)
    }

    ghost same = { λ a. (S.same (sources_of a.server), same_count a.replies) };

    ghost after = { λ a b c x y. (
      S.after (sources_of a.server) (sources_of b.server) (sources_of c.server) x.0 y.0,
      later_count a.replies b.replies c.replies x.1 y.1,
    ) };

    ghost keeps = { λ a b x. came_keeps (S.view (sources_of a.server)) (S.view (sources_of b.server)) a.replies b.replies a.last b.last
        (S.keeps (sources_of a.server) (sources_of b.server) x.0) x.1 };

    ghost root_known = { λ a s told h. S.root_known (sources_of a.server) s h };
}
