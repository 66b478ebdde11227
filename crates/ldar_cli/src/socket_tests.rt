use crate::TcpFront;
use disk_model::NoDisk;
use ldar_ports::{Ended, Front, Sink, Source};
use std::io;
use std::io::Write;
use std::net::{Ipv4Addr, Shutdown, TcpListener, TcpStream};
use std::test::Fail;

#[test]
fn the_last_answer_arrives_though_bytes_are_unread(rt: HostRuntime) -> Result<(), Fail> {
    let listener = TcpListener::bind(&rt, (Ipv4Addr::LOCALHOST, 0u16))?;
    let mut client = TcpStream::connect(&rt, listener.local_addr()?)?;
    let mut front = TcpFront::new(rt.alloc(), &rt, Some(listener));
    client.write_all(b"request and more")?;
    client.shutdown(Shutdown::Write)?;
    let Ok(Some((mut input, mut output))) = front.accept() else {
        return Err(Fail::new("it was not accepted"));
    };
    let mut bytes = [0u8; 7];
    assert_eq!(rt; input.take(&mut bytes), Ok(7));
    assert_eq!(rt; bytes.as_slice(), b"request".as_slice());
    assert_eq!(rt; output.put(&NoDisk, b"answer"), Ok(6));
    front.finish(input, output, Ended::Refused { at: 7 });
    assert_eq!(rt; io::read_to_string(rt.alloc(), client)?.as_str(), "answer");
    Ok(())
}

#[test]
fn nothing_is_accepted_without_a_listener(rt: HostRuntime) {
    let mut front = TcpFront::new(rt.alloc(), &rt, None);
    assert!(rt; front.accept().is_err());
}
