// Answers of commands, made from those of the index calls.
ghost use Rattle.std.specs.Prelude.{◌≡◌, ◌≤◌};
ghost use Rattle.leases.specs.Plans.{together};

use ordered::Answer;

// What a second call tells, with the frames and visits of both.
pub fn joined(before: Answer, after: Answer) -> Answer
    requires frames { (before.frames ≤ 255) × (after.frames ≤ 255) }
    requires visits { (before.visits ≤ 20) × (after.visits ≤ 20) }
    ensures { result ≡ together before after }
{
    Answer {
        outcome: after.outcome,
        number: 0,
        frames: before.frames + after.frames,
        visits: before.visits + after.visits,
        rebuilding: after.rebuilding,
    }
}
