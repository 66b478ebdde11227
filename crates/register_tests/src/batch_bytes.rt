use ldar_facts::{
    Batch, Class, Day, Designation, Fact, FactBody, Kind, Name, Purpose, Read, Service, Sort,
    VisualState, read_batch, write_batch,
};
use std::alloc::{AllocError, Global};
use std::test::Fail;

// Handheld 7, batch 12: one calibration on 2024-02-20 at 10:00, instrument 1, 500 ppm.
const CALIBRATION: [u8; 20] = *b"\x42\0\x07\0\0\0\x0c\0\x01\x07\x4d\x3d\x02\x58\0\x01\0\0\x01\xf4";

// Handheld 0, batch 1: on 2020-01-15 process unit 1, CRUDE, starts up; it is not older.
const UNIT: [u8; 28] = *b"\x42\0\0\0\0\0\x01\0\x01\x01\x47\x64\0\0\x01\0CRUDE\0\0\0\0\0\0\0";

// Handheld 258, batch 16,909,060: a fact of each kind, all on 2024-02-20 at 10:00.
const EVERY_KIND: [u8; 199] = *b"\x42\x01\x02\x01\x02\x03\x04\0\x0f\
    \x01\x4d\x3d\x02\x58\x02\x01ALKY-2\0\0\0\0\0\0\
    \x02\x4d\x3d\x02\x58\x01\x03\x02\x02\x01\0\x02\x02\x0c\x03\
    \x03\x4d\x3d\x02\x58\x01\x03\x01\x03\0\x02\
    \x04\x4d\x3d\x02\x58\x01\x03\
    \x05\x4d\x3d\x02\x58\x02\x03\x4c\xe2\
    \x06\x4d\x3d\x02\x58\x02\x01\x02\
    \x07\x4d\x3d\x02\x58\0\x05\0\0\x27\x10\
    \x08\x4d\x3d\x02\x58\0\x05\0\0\x01\xf4\0\0\x01\xf5\0\0\x01\xf6\0\0\x01\xf7\
    \x09\x4d\x3d\x02\x58\0\x05\0\0\x01\xf8\0\0\x01\xf9\0\0\x01\xfa\0\0\x01\xfb\
    \x0a\x4d\x3d\x02\x58\x01\x03\0\x05\0\x06\x02\0\x01\x86\xa0\0\0\0\x03\
    \x0b\x4d\x3d\x02\x58\x01\x03\x01\
    \x0c\x4d\x3d\x02\x58\x01\x03\x01\
    \x0d\x4d\x3d\x02\x58\x01\x03\x03\0\x09\x4d\x5a\
    \x0e\x4d\x3d\x02\x58\x01\x03\
    \x0f\x4d\x3d\x02\x58\x01\x03\x02\x01";

/// The component of the facts in `EVERY_KIND`.
const COMPONENT: u16 = 259;

/// The bodies of the first six of them, with the day of a notice.
fn entered(name: Name, notified: Day) -> [FactBody; 6] {
    let class = Class {
        service: Service::Light,
        designation: Designation::Unsafe,
        plan: 12,
        month: 3,
    };
    let later = Class {
        service: Service::Gas,
        designation: Designation::Difficult,
        plan: 0,
        month: 2,
    };
    [
        FactBody::Unit {
            unit: 2,
            older: true,
            name,
        },
        FactBody::Component {
            component: COMPONENT,
            unit: 2,
            kind: Kind::Pump,
            monomer: true,
            replaces: false,
            class,
        },
        FactBody::Class {
            component: COMPONENT,
            class: later,
        },
        FactBody::Retire {
            component: COMPONENT,
        },
        FactBody::Election {
            unit: 2,
            mode: 3,
            notified,
        },
        FactBody::Shutdown { unit: 2, days: 258 },
    ]
}

/// The bodies of the three on an instrument.
const TESTED: [FactBody; 3] = [
    FactBody::Calibration {
        instrument: 5,
        gas: 10_000,
    },
    FactBody::Precision {
        instrument: 5,
        value: 500,
        readings: (501, 502, 503),
    },
    FactBody::Drift {
        instrument: 5,
        value: 504,
        readings: (505, 506, 507),
    },
];

/// The bodies of the others, with the expected day of a repair.
fn seen(expected: Day) -> [FactBody; 6] {
    [
        FactBody::Reading {
            component: COMPONENT,
            instrument: 5,
            operator: 6,
            purpose: Purpose::FollowUp,
            ppm: 100_000,
            background: 3,
        },
        FactBody::Visual {
            component: COMPONENT,
            state: VisualState::Drips,
        },
        FactBody::Attempt {
            component: COMPONENT,
            complete: true,
        },
        FactBody::Delay {
            component: COMPONENT,
            ground: 3,
            signer: 9,
            expected: Some(expected),
        },
        FactBody::Release {
            component: COMPONENT,
        },
        FactBody::Indication {
            component: COMPONENT,
            sort: Sort::Evidence,
            present: true,
        },
    ]
}

/// The result of reading some bytes, without the batch itself.
#[derive(Clone, Copy, Debug, PartialEq, Eq)]
enum Outcome {
    Whole { used: usize },
    Short,
    Bad { at: usize },
}

fn outcome_of(alloc: Global, bytes: &[u8]) -> Result<Outcome, AllocError> {
    match read_batch(alloc, bytes)? {
        Read::Whole { batch: _, used } => Ok(Outcome::Whole { used }),
        Read::Short => Ok(Outcome::Short),
        Read::Bad { at } => Ok(Outcome::Bad { at }),
    }
}

fn whole(alloc: Global, bytes: &[u8]) -> Result<Batch, Fail> {
    match read_batch(alloc, bytes)? {
        Read::Whole { batch, used: _ } => Ok(batch),
        _ => Err(Fail::from("a batch")),
    }
}

/// These bytes, with others in place of those from a place on.
fn changed(
    alloc: Global,
    bytes: &[u8],
    place: usize,
    others: &[u8],
) -> Result<Vec<u8>, AllocError> {
    let mut changed = Vec::from_slice(alloc, bytes)?;
    for (there, other) in changed.iter_mut().skip(place).zip(others) {
        *there = *other;
    }
    Ok(changed)
}

fn calibration(day: Day) -> Fact {
    Fact {
        day,
        minute: 600,
        body: FactBody::Calibration {
            instrument: 1,
            gas: 500,
        },
    }
}

#[test]
fn the_first_wrong_place_is_reported(rt: HostRuntime) -> Result<(), Fail> {
    // A place, the bytes to put there, and the expected result of reading.
    let cases = [
        (
            CALIBRATION.as_slice(),
            0,
            b"".as_slice(),
            Outcome::Whole { used: 20 },
        ),
        (
            CALIBRATION.as_slice(),
            0,
            b"\x43".as_slice(),
            Outcome::Bad { at: 0 },
        ),
        (
            CALIBRATION.as_slice(),
            7,
            b"\0\0".as_slice(),
            Outcome::Bad { at: 8 },
        ),
        (
            CALIBRATION.as_slice(),
            7,
            b"\x02\x01".as_slice(),
            Outcome::Bad { at: 8 },
        ),
        (
            CALIBRATION.as_slice(),
            10,
            b"\x36\x36".as_slice(),
            Outcome::Bad { at: 11 },
        ),
        (
            UNIT.as_slice(),
            0,
            b"".as_slice(),
            Outcome::Whole { used: 28 },
        ),
        (
            UNIT.as_slice(),
            22,
            b"\x44".as_slice(),
            Outcome::Bad { at: 22 },
        ),
    ];
    for (bytes, place, others, want) in cases {
        let bytes = changed(rt.alloc(), bytes, place, others)?;
        assert_eq!(rt; outcome_of(rt.alloc(), &bytes)?, want);
    }
    Ok(())
}

#[test]
fn a_proper_front_of_a_batch_is_short(rt: HostRuntime) -> Result<(), Fail> {
    for len in 0..CALIBRATION.len() {
        assert_eq!(rt;
            outcome_of(rt.alloc(), &CALIBRATION[..len])?,
            Outcome::Short
        );
    }
    Ok(())
}

#[test]
fn a_batch_of_every_kind_is_read_and_written(rt: HostRuntime) -> Result<(), Fail> {
    let day = Day::read(b"2024-02-20").ok_or("day")?;
    let notified = Day::read(b"2023-11-21").ok_or("day")?;
    let expected = Day::read(b"2024-03-20").ok_or("day")?;
    let name = Name::new(b"ALKY-2").ok_or("name")?;
    let batch = whole(rt.alloc(), &EVERY_KIND)?;
    assert_eq!(rt; (batch.handheld, batch.number), (258, 16_909_060));
    let facts = batch.facts.as_slice();
    assert_eq!(rt; facts.len(), 15);
    let bodies = entered(name, notified)
        .into_iter()
        .chain(TESTED)
        .chain(seen(expected));
    for (fact, body) in facts.iter().zip(bodies) {
        assert!(rt; fact.day == day && fact.minute == 600 && fact.body == body);
    }
    let mut out = Vec::from_slice(rt.alloc(), b"before")?;
    write_batch(rt.alloc(), &batch, &mut out)?;
    assert_eq!(rt; out.get(6..), Some(EVERY_KIND.as_slice()));
    Ok(())
}

#[test]
fn a_batch_has_1_to_512_facts(rt: HostRuntime) -> Result<(), Fail> {
    let day = Day::read(b"2024-02-20").ok_or("day")?;
    for (count, want) in [(0, false), (1, true), (512, true), (513, false)] {
        let facts = vec![in rt.alloc(); calibration(day); count]?;
        assert_eq!(rt; Batch::new(7, 12, facts).is_some(), want, "{count} facts");
    }
    Ok(())
}

#[test]
fn a_batch_that_was_written_is_read_again(rt: HostRuntime) -> Result<(), Fail> {
    let day = Day::read(b"2024-02-20").ok_or("day")?;
    let facts = vec![in rt.alloc(); calibration(day); 1]?;
    let batch = Batch::new(7, 12, facts).ok_or("a batch")?;
    let mut out = Vec::new(rt.alloc());
    write_batch(rt.alloc(), &batch, &mut out)?;
    assert_eq!(rt; out.as_slice(), CALIBRATION.as_slice());
    let again = whole(rt.alloc(), &out)?;
    assert!(rt; again.same_content(&batch) && again.identity() == batch.identity());
    assert!(rt; !again.same_content(&whole(rt.alloc(), &UNIT)?));
    Ok(())
}
