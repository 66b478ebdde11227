ghost use Rattle.std.specs.Prelude.{◌≡◌, length, IfOk};

use batch_positions::Positions;
use fact_kinds::Identity;
use std::alloc::Global;
use std::test::Fail;

fn identity(handheld: u16, number: u32) -> Identity {
    Identity { handheld, number }
}

// Adds identities one after the other, each if it is new. Returns their number.
fn add(positions: &mut Positions, identities: &[Identity]) -> Result<usize, Fail>
    ensures { IfOk result (λ count. count ≡ length positions.new.identities) }
{
    for identity in identities {
        positions.reserve(1)?;
        if positions.position(*identity).is_none() {
            positions.push(*identity);
        }
    }
    Ok(positions.len())
}

#[test]
fn each_identity_has_its_position(rt: HostRuntime) -> Result<(), Fail> {
    // Runs of two handhelds, a number that arrives late, one that is repeated, and the ends of the ranges.
    let all = [
        identity(7, 10),
        identity(3, 1),
        identity(7, 11),
        identity(3, 2),
        identity(7, 5),
        identity(7, 12),
        identity(7, 4),
        identity(0, 0),
        identity(65_535, 4_294_967_295),
        identity(7, 6),
    ];
    let mut positions = Positions::new(rt.alloc())?;
    assert_eq!(rt; add(&mut positions, &all)?, 10);
    for (index, identity) in all.iter().enumerate() {
        assert_eq!(rt; positions.position(*identity), Some(index as u32 + 1));
    }
    assert_eq!(rt; add(&mut positions, &all)?, 10);
    for absent in [
        identity(7, 3),
        identity(7, 13),
        identity(3, 0),
        identity(4, 1),
    ] {
        assert_eq!(rt; positions.position(absent), None);
    }
    Ok(())
}

// This many identities of one handheld, whose numbers differ by `step`.
fn stepped(alloc: Global, count: u32, step: u32) -> Result<Vec<Identity>, Fail> {
    let mut all = Vec::new(alloc);
    for index in 0..count {
        all.push(identity(1, index.wrapping_mul(step)))?;
    }
    Ok(all)
}

#[test]
fn a_long_list_is_found_in_any_order(rt: HostRuntime) -> Result<(), Fail> {
    // In order, in reverse order, and in a mixed order.
    for step in [1, u32::MAX, 2_654_435_761] {
        let all = stepped(rt.alloc(), 5_000, step)?;
        let mut positions = Positions::new(rt.alloc())?;
        assert_eq!(rt; add(&mut positions, &all)?, 5_000);
        for (index, identity) in all.iter().enumerate() {
            assert_eq!(rt;
                positions.position(*identity),
                u32::try_from(index + 1).ok()
            );
        }
        assert_eq!(rt; positions.position(identity(1, 5_000)), None);
    }
    Ok(())
}

#[test]
fn what_was_added_goes_again(rt: HostRuntime) -> Result<(), Fail> {
    let mut positions = Positions::new(rt.alloc())?;
    assert_eq!(rt;
        add(
            &mut positions,
            &[identity(1, 8), identity(1, 4), identity(2, 9)]
        )?,
        3
    );
    // A late number, the next number, and a late one again.
    for number in [2, 9, 6] {
        let count = add(&mut positions, &[identity(1, number)])?;
        assert_eq!(rt; count, 4);
        positions.pop();
        assert_eq!(rt; positions.position(identity(1, number)), None);
        assert_eq!(rt; positions.position(identity(1, 4)), Some(2));
        assert_eq!(rt; positions.position(identity(2, 9)), Some(3));
    }
    assert_eq!(rt;
        add(
            &mut positions,
            &[identity(1, 6), identity(1, 2), identity(1, 9)]
        )?,
        6
    );
    for (number, want) in [(8, 1), (4, 2), (6, 4), (2, 5), (9, 6)] {
        assert_eq!(rt; positions.position(identity(1, number)), Some(want));
    }
    Ok(())
}

#[test]
fn room_for_many_is_made_at_once(rt: HostRuntime) -> Result<(), Fail> {
    let mut positions = Positions::new(rt.alloc())?;
    positions.reserve(100_000)?;
    assert_eq!(rt; positions.len(), 0);
    assert!(rt; positions.reserve(usize::MAX).is_err());
    Ok(())
}
