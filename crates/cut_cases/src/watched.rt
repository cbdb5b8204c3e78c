// Documents in memory that note which of them failed.
use lxp_core::{HoleId, OpenTree, SourceFault, Sources};
use lxp_memory::MemSources;
use std::alloc::Global;

/// Documents in memory, and which of them failed last.
#[derive(Drop)]
pub struct Watched {
    pub sources: MemSources,
    pub failed: Option<u32>,
}

impl Sources for Watched {
    ghost use Rattle.lxp_memory.specs.Memory.{memory_view, CameFrom};
    ghost use Rattle.lxp_memory.specs.MemoryLaws.{came_same, came_after, came_keeps, root_is_known};

    ghost view = { λ w. memory_view w.sources };

    ghost came_from = { λ old new. CameFrom old.sources new.sources };

    fn count(&self) -> u32 {
        self.sources.count()
    }

    fn get_root(&self, s: u32) -> HoleId {
        self.sources.get_root(s)
    }

    fn fill(&mut self, alloc: Global, s: u32, hole: HoleId) -> Result<Vec<OpenTree>, SourceFault> {
        let answer = self.sources.fill(alloc, s, hole);
        if let Err(SourceFault::Failed) = &answer {
            self.failed = Some(s);
        }
        answer
    }

    ghost same = { λ a. came_same a.sources };

    ghost after = { λ a b c. came_after a.sources b.sources c.sources };

    ghost keeps = { λ a b. came_keeps a.sources b.sources };

    ghost root_known = { λ a. root_is_known a.sources };
}
