//! The class of a component, from one day to another.

use crate::words::{key, plain};
use fact_kinds::{Kind, Service};
use ldar_days::Day;
use ldar_law::{ClassInForce, Equipment, entered_from};
use std::test::Fail;

#[test]
fn a_class_is_in_force_until_the_next_one_is_entered(rt: HostRuntime) -> Result<(), Fail> {
    let item = Equipment {
        component: 1,
        unit: 1,
        kind: Kind::Valve,
        monomer: false,
        replaces: false,
        begin: Day::at(18_000),
        retired: None,
        class: plain(Service::Gas),
    };
    let classes = [
        (key(Day::at(19_000), 0), plain(Service::Light)),
        (key(Day::at(19_100), 0), plain(Service::Heavy)),
    ];
    let gas = ClassInForce::on(&item, &classes, Day::at(18_999));
    let light = gas.moved_to(&item, &classes, Day::at(19_000));
    let still = light.moved_to(&item, &classes, Day::at(19_099));
    let heavy = still.moved_to(&item, &classes, Day::at(19_100));
    let back = heavy.moved_to(&item, &classes, Day::at(18_000));
    assert_eq!(rt; gas.class.service, Service::Gas);
    assert_eq!(rt; light.class.service, Service::Light);
    assert_eq!(rt; still.class.service, Service::Light);
    assert_eq!(rt; heavy.class.service, Service::Heavy);
    assert_eq!(rt; back.class.service, Service::Gas);
    assert!(rt; light.holds_on(Day::at(19_099)));
    assert!(rt; !light.holds_on(Day::at(19_100)));
    assert_eq!(rt; entered_from(&classes, 0, Day::at(18_999)), 0);
    assert_eq!(rt; entered_from(&classes, 0, Day::at(19_099)), 1);
    assert_eq!(rt; entered_from(&classes, 0, Day::at(19_100)), 2);
    let after = ClassInForce::after(&item, &classes, 1);
    assert_eq!(rt; after.class.service, Service::Light);
    assert!(rt; after.holds_on(Day::at(19_000)));
    Ok(())
}
