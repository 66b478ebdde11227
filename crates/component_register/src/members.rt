ghost use Rattle.std.specs.Prelude.{◌≡◌, ℕ, ◌<◌, ◌≤◌, nat_lt, nat_le, IsTrue, IfOk, length, insert};
ghost use Rattle.std.specs.List.{filter_map};
ghost use Rattle.list_words.specs.Order.{put_in_order, Ascends};
ghost use Rattle.fact_kinds.specs.Named.{is_numbered};
ghost use Rattle.fact_store.specs.Lists.{items_in, room_in};
ghost use Rattle.component_register.specs.Members.{unit_joined, TakesMember};

use crate::entered::membership;
use fact_kinds::{Fact, FactBody};
use fact_store::lists::{Lists, list_of, put_in};
use std::alloc::{AllocError, Global};

/// The process unit in which a fact enters a component, as the number of a list.
fn joined_unit(body: &FactBody) -> Option<u16>
    ensures value { result ≡ unit_joined body.now }
{
    membership(body).map(|joined| u16::from(joined.0))
}

/// The process units in which some facts enter components, as often as they do.
pub fn joined_among(alloc: Global, facts: &[Fact]) -> Result<Vec<u16>, AllocError>
    ensures value { IfOk result (λ numbers. numbers.items ≡ filter_map (λ fact. unit_joined fact.body) facts.now) }
{
    facts
        .iter()
        .filter_map(|fact| joined_unit(&fact.body))
        .collect(alloc)
}

/// Where a component belongs among ascending ones.
fn index_for(members: &[u16], component: u16) -> usize
    requires { Ascends nat_le members.now }
    ensures within { result ≤ length members.now }
    ensures value { put_in_order nat_lt component members.now ≡ insert members.now result component }
{
    members.partition_point(|other| *other <= component)
}

/// Puts a component that a fact enters among those of its process unit.
pub fn put_member(rosters: &mut Lists<u16>, body: &FactBody)
    requires roomy { (n : ℕ) → IsTrue (is_numbered (unit_joined body.now) n) → 0 < room_in rosters.old.items n }
    requires ordered { (n : ℕ) → Ascends nat_le (items_in rosters.old.items n) }
    ensures { TakesMember body.now rosters.old.items rosters.new.items }
{
    if let Some((unit, component)) = membership(body) {
        let unit = u16::from(unit);
        let index = index_for(list_of(rosters, unit), component);
        put_in(rosters, unit, index, component);
    }
}
