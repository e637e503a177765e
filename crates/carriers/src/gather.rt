// Takes bytes in: each is put at index taken among the staged ones.
ghost use Rattle.std.specs.Prelude.{◌≡◌, ◌+◌, ◌<◌, ◌≤◌, length, take};
ghost use Rattle.words.specs.Over.{put};
ghost use Rattle.memories.specs.Effects.{staged_bytes};
ghost use Rattle.command.specs.Progress.{progress_at, fitting, staged_with};

use memories::STAGED;

// Puts new bytes among the staged ones, from an index on.
pub fn stage(staged: &mut [u8; STAGED], at: usize, new: &[u8])
    requires { at + length new.now ≤ staged_bytes }
    ensures { staged.new ≡ put staged.old at new.now }
{
    words::lay(staged, at, new);
}

// Stages new bytes as far as a step expects them, whatever its address, and tells how many it has then taken.
pub fn gather(staged: &mut [u8; STAGED], taken: usize, expected: usize, new: &[u8]) -> usize
    requires { (taken < expected) × (expected ≤ staged_bytes) }
    ensures { (result ≡ taken + length (fitting (progress_at taken expected 0 staged.old) new.now))
        × (staged.new ≡ staged_with (progress_at taken expected 0 staged.old) new.now) }
{
    let fit = (expected - taken).min(new.len());
    words::lay(staged, taken, &new[..fit]);
    taken + fit
}
