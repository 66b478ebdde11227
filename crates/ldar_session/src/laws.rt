//! Laws about what a connection is served: empty functions whose contracts are the laws.

ghost use Rattle.std.specs.Prelude.{◌≡◌, ℕ, Bool, false, List, ◌++◌, length, map, take, Option};
ghost use Rattle.std.specs.List.{flat_map, AllByRecursion};
ghost use Rattle.ldar_facts.specs.Grammar.{HasNoBatch};
ghost use Rattle.handheld_http.specs.Items.{IsItem, HasNoItem};
ghost use Rattle.ldar_law.specs.Machine.{Call, Moment, Runs};
ghost use Rattle.ldar_session.specs.Batches.{IsBatch, IsSpelling};
ghost use Rattle.ldar_session.specs.Requests.{AreRequests, IsStream};
ghost use Rattle.ldar_session.specs.Served.{Served, HasItsClock, items_of};
ghost use Rattle.ldar_session.specs.Session.{Ends, LeavesNone};
ghost use Rattle.ldar_ports.specs.declared.ended.Ended.{Ended};

/// If no batch is at the front of the rest, each whole batch at the front of the bytes was served, in order.
pub fn every_batch_is_served()
    ensures law { (served : List Served) (rest : List ℕ) (batches : List (List ℕ)) (more : List ℕ)
        → AllByRecursion IsBatch served → HasNoBatch rest → AllByRecursion IsSpelling batches
        → items_of served ++ rest ≡ flat_map (λ bytes. bytes) batches ++ more
        → take (length batches) (map (λ s. s.item) served) ≡ batches }
{}

/// Only the bytes decide what was served and what is left over, however they were split on the way.
pub fn pieces_do_not_matter()
    ensures law { (served other : List Served) (rest left : List ℕ)
        → AllByRecursion IsBatch served → AllByRecursion IsBatch other → HasNoBatch rest → HasNoBatch left
        → items_of served ++ rest ≡ items_of other ++ left
        → (map (λ s. s.item) served ≡ map (λ s. s.item) other) × (rest ≡ left) }
{}

/// If no answered request closes the connection and no request is at the front of the rest, each whole request at the
/// front of the bytes was answered, in order.
pub fn every_request_is_answered()
    ensures law { (served : List Served) (rest : List ℕ) (requests : List (List ℕ)) (more : List ℕ)
        → AreRequests false served → HasNoItem rest → AllByRecursion IsItem requests
        → items_of served ++ rest ≡ flat_map (λ bytes. bytes) requests ++ more
        → take (length requests) (map (λ s. s.item) served) ≡ requests }
{}

/// The answered requests are the first of those at the front of the bytes, whatever is left over.
pub fn requests_are_answered_in_order()
    ensures law { (closing : Bool) (served : List Served) (rest : List ℕ) (requests : List (List ℕ)) (more : List ℕ)
        → AreRequests closing served → AllByRecursion IsItem requests
        → items_of served ++ rest ≡ flat_map (λ bytes. bytes) requests ++ more
        → take (length requests) (map (λ s. s.item) served) ≡ take (length served) requests }
{}

/// Unless a connection of requests ended by a write error or out of memory, each whole request was answered up to the
/// first that closes the connection or is refused, or up to the maximum number.
pub fn no_request_is_left()
    ensures law { (ended : Ended) (served : List Served) (rest : List ℕ) (left : Option (List ℕ)) (unsaid : List ℕ)
        → Ends ended served rest left unsaid → LeavesNone ended served rest }
{}

/// Only the bytes decide which requests were answered and what is left over, however they were split on the way.
pub fn pieces_of_requests_do_not_matter()
    ensures law { (served other : List Served) (rest left : List ℕ) → IsStream served rest → IsStream other left
        → items_of served ++ rest ≡ items_of other ++ left
        → (map (λ s. s.item) served ≡ map (λ s. s.item) other) × (rest ≡ left) }
{}

/// In a run of the machine, each turn has the clock at which its call returned, so its answer was not written earlier.
pub fn runs_have_clocks()
    ensures law { (start end : Moment) (calls : List Call) → Runs start calls end → AllByRecursion HasItsClock calls }
{}
