use crate::hall::Hall;
use fpl_base::{Sink, Source};
use std::io::{Read, Write};
use std::net::TcpStream;
use std::test::Fail;

// A client whose message is not whole keeps nobody waiting, and one with two messages is answered twice.
#[test]
fn whole_messages_come_one_by_one(rt: HostRuntime) -> Result<(), Fail> {
    let mut hall = Hall::open(&rt, rt.alloc(), 0, 2)?;
    let address = hall.address()?;
    let mut slow = TcpStream::connect(&rt, address)?;
    let mut quick = TcpStream::connect(&rt, address)?;
    slow.write_all(b"GET /s HT")?;
    quick.write_all(b"GET /q HTTP/1.1\r\n\r\nGET /r HTTP/1.0\r\n\r\n")?;
    let mut targets = [0u8; 2];
    for target in targets.iter_mut() {
        let (mut asked, mut told) = hall.next(&rt, &mut None)?;
        let mut place = [0u8; 64];
        assert_eq!(rt; asked.read(&mut place), Ok(19));
        assert_eq!(rt; asked.read(&mut [0u8; 64]), Ok(0));
        *target = place[5];
        assert!(rt; told.write(&place[5..6]).is_ok());
        hall.give_back(asked.key(), told);
    }
    assert_eq!(rt; targets, *b"qr");
    let mut place = [0u8; 2];
    quick.read_exact(&mut place)?;
    assert_eq!(rt; place, *b"qr");
    assert_eq!(rt; quick.read(&mut place)?, 0);
    Ok(())
}
