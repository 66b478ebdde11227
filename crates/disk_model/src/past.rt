ghost use Rattle.std.specs.Prelude.{◌≡◌, [], ◌∷◌, length};
ghost use Rattle.disk_model.specs.Moments.{WroteAt, SyncedAs};

use http_server::Log;
use std::marker::Model;

// A call's change of what a crash may leave.
#[derive(Drop)]
pub enum Step {
    Wrote { at: u64, count: usize },
    Synced,
}

// The changes of what a crash may leave by a disk's calls, latest first, for proofs only: it takes no memory, and its
// calls do nothing at run time.
#[derive(Drop)]
pub struct Past {
    steps: Log<Step, Vec<u8>>,
}

impl Model for Past {
    ghost use Rattle.std.specs.Prelude.{List};
    ghost use Rattle.disk_model.specs.Moments.{Change};
    ghost use Rattle.disk_model.specs.Steps.{changes_by};

    ghost Value = { List Change };

    ghost view = { λ p. changes_by p.steps.items };
}

impl Past {
    // No call yet.
    pub fn new() -> Past
        ensures value { result ≡ [] }
    {
        Past { steps: Log::new() }
    }

    // Adds a write of this many bytes at this place, with the content after it.
    pub fn wrote(&mut self, at: u64, count: usize, content: &Vec<u8>)
        ensures value { self.new ≡ WroteAt at count ∷ self.old }
    {
        self.steps = self.steps.and(&Step::Wrote { at, count }, content);
    }

    // Adds a sync of this content.
    pub fn synced(&mut self, content: &Vec<u8>)
        ensures value { self.new ≡ SyncedAs content.now.items ∷ self.old }
    {
        self.steps = self.steps.and(&Step::Synced, content);
    }
}

// The initial bytes of a disk, for proofs only: it takes no memory.
#[derive(Drop)]
pub struct Start {
    content: Log<Vec<u8>, ()>,
}

impl Model for Start {
    ghost use Rattle.std.specs.Prelude.{ℕ, List};
    ghost use Rattle.disk_model.specs.Steps.{first_content};

    ghost Value = { List ℕ };

    ghost view = { λ s. first_content s.content.items };
}

impl Start {
    // The start of a disk with these bytes.
    pub fn of(content: &Vec<u8>) -> Start
        ensures value { result ≡ content.now.items }
    {
        Start {
            content: Log::new().and(content, &()),
        }
    }
}
