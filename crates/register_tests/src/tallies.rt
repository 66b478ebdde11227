use ldar_law::{Items, Mark, MonthCells, Reply, Tally, Text, What};
use std::test::Fail;

#[test]
fn a_tally_counts_in_and_out(rt: HostRuntime) -> Result<(), Fail> {
    let cases = [
        (false, false, 3, 8),
        (false, true, 3, 9),
        (true, false, 4, 8),
        (true, true, 4, 9),
    ];
    for (leaking, monitored, leaks, looks) in cases {
        let mut tally = Tally {
            leaking: 3,
            monitored: 8,
        };
        let before = tally;
        let mark = Mark { leaking, monitored };
        tally.add(mark);
        let after = Tally {
            leaking: leaks,
            monitored: looks,
        };
        assert_eq!(rt; tally, after);
        tally.remove(mark);
        assert_eq!(rt; tally, before);
    }
    Ok(())
}

#[test]
fn lists_and_texts_give_back_what_they_hold(rt: HostRuntime) -> Result<(), Fail> {
    let alloc = rt.alloc();
    let items = Items::new(vec![in alloc; 7u16, 3, 9]?);
    assert_eq!(rt; items.as_slice(), [7, 3, 9].as_slice());
    assert_eq!(rt; items.into_vec().as_slice(), [7, 3, 9].as_slice());
    let text = Text::new(vec![in alloc; b'e', b'n', b'd']?);
    assert_eq!(rt; text.as_bytes(), b"end".as_slice());
    assert_eq!(rt; text.into_bytes().as_slice(), b"end".as_slice());
    let mut cells = [0u32; 36];
    cells[35] = 2;
    assert_eq!(rt; MonthCells::new(cells).as_slice(), cells.as_slice());
    Ok(())
}

#[test]
fn a_line_goes_behind_what_stands(rt: HostRuntime) -> Result<(), Fail> {
    let alloc = rt.alloc();
    let receipt = Reply::Receipt {
        handheld: 7,
        number: 12,
        position: 4_000_000_000,
    };
    let cases = [
        (receipt, "-receipt 7 12 4000000000\n"),
        (Reply::Conflict { position: 1 }, "-conflict 1\n"),
        (
            Reply::Denied { fact: 1, rule: 10 },
            "-denied 1 10 60.482-9a(d)\n",
        ),
        (Reply::Full { facts: 8_000_001 }, "-full 8000001\n"),
        (Reply::NoSuch(What::Stops), "-no such stops\n"),
        (Reply::Fault, "-disk fault\n"),
        (Reply::Memory, "-memory\n"),
    ];
    for (reply, line) in cases.iter() {
        let mut out = vec![in alloc; b'-']?;
        reply.put_line(alloc, &mut out)?;
        assert_eq!(rt; out.as_slice(), line.as_bytes());
    }
    let mut out = vec![in alloc; b'-']?;
    let text = Text::new(vec![in alloc; b'x'; 40_000]?);
    Reply::Shown(text).put_line(alloc, &mut out)?;
    assert_eq!(rt; out.len(), 40_001);
    Ok(())
}
