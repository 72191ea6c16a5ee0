// The end of a sweep: the painted runs are wiped and released.
ghost use Rattle.quarantine.specs.Kept.{painted_of};
ghost use Rattle.sweep.specs.Sweeping.{released_cells, wiped_bytes, wiped_tags};
ghost use Rattle.std.specs.Prelude.{◌≡◌, [], ◌∷◌, length};

use allocator::allocator::Allocator;
use memory::tagged_memory::TaggedMemory;
use quarantine::Quarantine;
use quarantine::run::Run;

// Wipes a run. Where it does not lie inside the memory, nothing changes.
fn wipe_run<M: TaggedMemory>(memory: &mut M, run: Run)
    ensures bytes { M.TaggedMemory.bytes memory.new ≡ wiped_bytes (length (M.TaggedMemory.tags memory.old)) (run ∷ []) (M.TaggedMemory.bytes memory.old) }
    ensures tags { M.TaggedMemory.tags memory.new ≡ wiped_tags (run ∷ []) (M.TaggedMemory.tags memory.old) }
{
    let _ = memory.wipe(run.start, run.length);
}

// Wipes the painted runs, one after another.
// Kept apart from `release_painted`: the two change different parts, by different traits, and share no clause.
pub fn wipe_painted<M: TaggedMemory>(memory: &mut M, quarantine: &Quarantine)
    ensures bytes { M.TaggedMemory.bytes memory.new ≡ wiped_bytes (length (M.TaggedMemory.tags memory.old)) (painted_of quarantine.now) (M.TaggedMemory.bytes memory.old) }
    ensures tags { M.TaggedMemory.tags memory.new ≡ wiped_tags (painted_of quarantine.now) (M.TaggedMemory.tags memory.old) }
{
    for run in quarantine.painted() {
        wipe_run(memory, *run);
    }
}

// Releases the run that begins where this one does. Where none does, nothing changes.
fn release_run<B: Allocator>(allocator: &mut B, run: Run)
    ensures cells { B.Allocator.cells allocator.new ≡ released_cells (run ∷ []) (B.Allocator.cells allocator.old) }
    ensures mark { B.Allocator.mark allocator.new ≡ B.Allocator.mark allocator.old }
    ensures most { B.Allocator.most allocator.new ≡ B.Allocator.most allocator.old }
    ensures size { length (B.Allocator.cells allocator.new) ≡ length (B.Allocator.cells allocator.old) }
{
    let _ = allocator.release(run.start);
}

// Releases the painted runs, one after another.
pub fn release_painted<B: Allocator>(allocator: &mut B, quarantine: &Quarantine)
    ensures cells { B.Allocator.cells allocator.new ≡ released_cells (painted_of quarantine.now) (B.Allocator.cells allocator.old) }
    ensures mark { B.Allocator.mark allocator.new ≡ B.Allocator.mark allocator.old }
    ensures most { B.Allocator.most allocator.new ≡ B.Allocator.most allocator.old }
    ensures size { length (B.Allocator.cells allocator.new) ≡ length (B.Allocator.cells allocator.old) }
{
    for run in quarantine.painted() {
        release_run(allocator, *run);
    }
}
