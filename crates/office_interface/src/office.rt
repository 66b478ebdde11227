ghost use Rattle.std.specs.Prelude.{◌≡◌, ◌<◌, ◌≤◌, ◌≢◌, [], ◌∷◌, ◌++◌, ℕ, List, length, map, OnOk, OnErr};
ghost use Rattle.std.specs.List.{AllByRecursion};
ghost use Rattle.fact_kinds.specs.declared.limits.TheConstants.{FRAME_BATCHES};
ghost use Rattle.ldar_law.specs.Machine.{Call, Turn, GroupStep};
ghost use Rattle.office_interface.specs.Asking.{requests_of, replies_of, MayShareFrame, HasRule};

use crate::Memory;
use disk_model::Disk;
use ldar_law::{Reply, Request};
use std::alloc::Global;

/// An office: it keeps batches and answers views.
pub trait Office: Drop {
    /// The disk whose clock stamps what is written for this office.
    type Beside: Disk;

    /// These calls lead from one value of the office to the other.
    ghost led: { Self → List Call → Self → Type 0 };

    /// The disk of the office.
    ghost beside_of: { Self → Self.Beside };

    /// Answers one request.
    fn ask(&mut self, alloc: Global, request: &Request) -> Reply
        ensures value { (call : Call) × led self.old (call ∷ []) self.new
            × (requests_of call ≡ request.now ∷ []) × (replies_of call ≡ result ∷ [])
            × (call.end.clock ≤ Self.Beside.clock (beside_of self.new)) }
        ensures ruled { HasRule result };

    /// Answers 1 to 16 requests in order, and appends the replies. Several requests must be batches of handhelds other
    /// than 0, and may share a frame of the journal. If it runs out of memory, no request is answered.
    fn ask_group(
        &mut self,
        alloc: Global,
        requests: &[Request],
        replies: &mut Vec<Reply>,
    ) -> Result<(), Memory>
        requires some { 0 < length requests.now }
        requires fits { length requests.now ≤ FRAME_BATCHES }
        requires alike { MayShareFrame requests.now }
        ensures value { OnOk result ((call : Call) × led self.old (call ∷ []) self.new
            × (requests_of call ≡ requests.now) × (replies.new.items ≡ replies.old.items ++ replies_of call)
            × AllByRecursion HasRule (replies_of call)
            × (call.end.clock ≤ Self.Beside.clock (beside_of self.new))) }
        ensures unchanged { OnErr result ((self.new ≡ self.old) × (replies.new.items ≡ replies.old.items)) };

    /// The disk of the office.
    fn beside(&self) -> &Self::Beside
        ensures value { result.now ≡ beside_of self.now };

    /// No calls lead from an office to itself.
    ghost stays: { (office : Self) → led office [] office };

    /// Two consecutive runs of calls are one.
    ghost joins: { (a b c : Self) (first second : List Call) → led a first b → led b second c → led a (first ++ second) c };
}

impl<O: Office> Office for &mut O {
    type Beside = O::Beside;

    ghost led = { λ a calls b. O.led a.now calls b.now };

    ghost beside_of = { λ office. O.beside_of office.now };

    fn ask(&mut self, alloc: Global, request: &Request) -> Reply {
        (**self).ask(alloc, request)
    }

    fn ask_group(
        &mut self,
        alloc: Global,
        requests: &[Request],
        replies: &mut Vec<Reply>,
    ) -> Result<(), Memory> {
        (**self).ask_group(alloc, requests, replies)
    }

    fn beside(&self) -> &Self::Beside {
        (**self).beside()
    }

    ghost stays = { λ office. O.stays office.now };

    ghost joins = { λ a b c first second one two. O.joins a.now b.now c.now first second one two };
}
