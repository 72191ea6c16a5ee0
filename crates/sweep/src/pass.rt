// Passing granules: capabilities whose base is painted lose their tags.
// Kept as they are, here and in ending.rt: memory and quarantine as two parameters, since the one is written and the other
// only read, and no type holds both.
ghost use Rattle.std.specs.Prelude.{◌≡◌, ◌/◌, false, ◌&&◌, slice_index_or};
ghost use Rattle.quarantine.specs.Kept.{painted_of};
ghost use Rattle.quarantine.specs.Runs.{in_runs};
ghost use Rattle.sweep.specs.Sweeping.{is_stale, swept_tag, swept_tags};

use memory::granule::Granule;
use memory::tagged_memory::TaggedMemory;
use quarantine::Quarantine;

// Whether granule g has to be looked at. The memory says no only at an untagged granule.
fn must_look<M: TaggedMemory>(memory: &M, g: usize) -> bool
    ensures { result ≡ false → slice_index_or (M.TaggedMemory.tags memory.now) g false ≡ false }
{
    memory.may_hold(g).unwrap_or(false)
}

// Whether a granule holds a capability whose base is painted.
fn is_revoked(quarantine: &Quarantine, granule: Granule) -> bool
    ensures { result ≡ (granule.tagged && in_runs (painted_of quarantine.now) (granule.numbers.base / 16)) }
{
    granule.tagged && quarantine.is_painted(granule.numbers.base as usize / 16)
}

// Whether granule g is to lose its tag.
fn is_stale<M: TaggedMemory>(memory: &M, quarantine: &Quarantine, g: usize) -> bool
    ensures { result ≡ is_stale (painted_of quarantine.now) (M.TaggedMemory.bytes memory.now) g (M.TaggedMemory.tags memory.now) }
{
    must_look(memory, g)
        && memory
            .read_granule(g)
            .is_ok_and(|granule| is_revoked(quarantine, granule))
}

// Passes granule g.
pub fn pass_one<M: TaggedMemory>(memory: &mut M, quarantine: &Quarantine, g: usize)
    ensures bytes { M.TaggedMemory.bytes memory.new ≡ M.TaggedMemory.bytes memory.old }
    ensures tags { M.TaggedMemory.tags memory.new ≡ swept_tag (painted_of quarantine.now) (M.TaggedMemory.bytes memory.old) g (M.TaggedMemory.tags memory.old) }
{
    if is_stale(&*memory, quarantine, g) {
        let _ = memory.untag(g);
    }
}

// Passes `count` granules from `from` on, one after another. Past the last granule nothing changes.
#[tactic(auto, using(crate::proofs::Passes::swept_more, crate::proofs::Passes::swept_there))]
pub fn pass<M: TaggedMemory>(memory: &mut M, quarantine: &Quarantine, from: usize, count: usize)
    ensures bytes { M.TaggedMemory.bytes memory.new ≡ M.TaggedMemory.bytes memory.old }
    ensures tags { M.TaggedMemory.tags memory.new ≡ swept_tags (painted_of quarantine.now) (M.TaggedMemory.bytes memory.old) from count (M.TaggedMemory.tags memory.old) }
{
    // Kept as it is: a `for` over numbers, since a memory lends no slice of granules.
    let end = from.saturating_add(count).min(memory.granules());
    for g in from..end {
        pass_one(memory, quarantine, g);
    }
}
