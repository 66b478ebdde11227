use handheld_http::{Cut, Front, cut, head_of};
use std::test::Fail;

const GET: &[u8] = b"GET /due/1/2024-02-20 HTTP/1.1\r\nHost: office\r\n\r\n";

/// What Python's http.client writes for a POST of two bytes.
const POST: &[u8] =
    b"POST /sync HTTP/1.1\r\nHost: office\r\nAccept-Encoding: identity\r\nContent-Length: 2\r\n\r\n{}";

const CUTS: [(&[u8], Cut); 22] = [
    (b"", Cut::More),
    (
        GET,
        Cut::Whole {
            head: 48,
            body: 0,
            closing: false,
        },
    ),
    (
        b"GET / HTTP/1.0\r\n\r\nmore",
        Cut::Whole {
            head: 18,
            body: 0,
            closing: true,
        },
    ),
    (
        POST,
        Cut::Whole {
            head: 83,
            body: 2,
            closing: false,
        },
    ),
    (
        b"GET / HTTP/1.1\r\nConnection: keep-alive\r\nConnection: \t CLOSE \r\n\r\n",
        Cut::Whole {
            head: 64,
            body: 0,
            closing: true,
        },
    ),
    (
        b"GET / HTTP/1.1\r\nConnection: close, upgrade\r\n\r\n",
        Cut::Whole {
            head: 46,
            body: 0,
            closing: false,
        },
    ),
    (
        b"POST / HTTP/1.1\r\ncontent-length:  3\t\r\n\r\nabcd",
        Cut::Whole {
            head: 40,
            body: 3,
            closing: false,
        },
    ),
    (b"POST / HTTP/1.1\r\nContent-Length: 3\r\n\r\nab", Cut::More),
    (
        b"POST / HTTP/1.1\r\nContent-Length: 0003\r\n\r\nabc",
        Cut::Whole {
            head: 41,
            body: 3,
            closing: false,
        },
    ),
    (b"GET / HTTP/1.1\r\nHost: office\r\n", Cut::More),
    (b"GET / HTTP/1.1\n\n\r\n\r\n", Cut::Refused { status: 400 }),
    (b"GET  / HTTP/1.1\r\n\r\n", Cut::Refused { status: 400 }),
    (b"GET / HTTP/2.0\r\n\r\n", Cut::Refused { status: 400 }),
    (
        b"POST / HTTP/1.1\r\nTransfer-Encoding: chunked\r\nContent-Length: x\r\n\r\n",
        Cut::Refused { status: 501 },
    ),
    (
        b"POST / HTTP/1.1\r\nContent-Length: 5\r\nContent-Length: 5\r\n\r\nabcde",
        Cut::Refused { status: 400 },
    ),
    (
        b"POST / HTTP/1.1\r\nContent-Length: +5\r\n\r\n",
        Cut::Refused { status: 400 },
    ),
    (
        b"POST / HTTP/1.1\r\nContent-Length:\r\n\r\n",
        Cut::Refused { status: 400 },
    ),
    (b"POST / HTTP/1.1\r\n\r\n", Cut::Refused { status: 411 }),
    (
        b"post / HTTP/1.1\r\n\r\n",
        Cut::Whole {
            head: 19,
            body: 0,
            closing: false,
        },
    ),
    (
        b"GET / HTTP/1.1\r\nContent-Length: 262144\r\n\r\n",
        Cut::More,
    ),
    (
        b"GET / HTTP/1.1\r\nContent-Length: 262145\r\n\r\n",
        Cut::Refused { status: 413 },
    ),
    (
        b"GET / HTTP/1.1\r\nContent-Length: 99999999999999999999999999\r\n\r\n",
        Cut::Refused { status: 413 },
    ),
];

#[test]
fn requests_are_cut(rt: HostRuntime) -> Result<(), Fail> {
    for (bytes, want) in CUTS {
        assert_eq!(rt; cut(bytes), want);
    }
    Ok(())
}

#[test]
fn a_head_is_known_before_its_body(rt: HostRuntime) -> Result<(), Fail> {
    assert_eq!(rt; head_of(&POST[..82]), Front::Unended);
    for bytes in [&POST[..83], POST] {
        let Front::Head(extent) = head_of(bytes) else {
            return Err(Fail::from("a head"));
        };
        assert_eq!(rt; (extent.head, extent.body, extent.closing), (83, 2, false));
        assert_eq!(rt; (extent.method.start, extent.method.end), (0, 4));
        assert_eq!(rt; (extent.target.start, extent.target.end), (5, 10));
    }
    Ok(())
}

#[test]
fn a_head_ends_within_8192_bytes(rt: HostRuntime) -> Result<(), Fail> {
    let alloc = rt.alloc();
    for (length, want) in [
        (
            8_192usize,
            Cut::Whole {
                head: 8_192,
                body: 0,
                closing: false,
            },
        ),
        (8_193, Cut::Refused { status: 431 }),
    ] {
        let mut bytes = Vec::from_slice(alloc, b"GET / HTTP/1.1\r\nA: ")?;
        for _ in bytes.len()..length - 4 {
            bytes.push(b'a')?;
        }
        assert_eq!(rt; cut(&bytes), Cut::More);
        bytes.extend_from_slice(b"\r\n\r\n")?;
        assert_eq!(rt; cut(&bytes), want);
    }
    Ok(())
}

#[test]
fn a_head_has_at_most_64_fields(rt: HostRuntime) -> Result<(), Fail> {
    let alloc = rt.alloc();
    for (fields, want) in [
        (
            64usize,
            Cut::Whole {
                head: 402,
                body: 0,
                closing: false,
            },
        ),
        (65, Cut::Refused { status: 400 }),
    ] {
        let mut bytes = Vec::from_slice(alloc, b"GET / HTTP/1.1\r\n")?;
        for _ in 0..fields {
            bytes.extend_from_slice(b"a: b\r\n")?;
        }
        bytes.extend_from_slice(b"\r\n")?;
        assert_eq!(rt; cut(&bytes), want);
    }
    Ok(())
}
