// Requests by their bytes.
use lxp_core::HoleId;
use std::test::Fail;
use wire_text::{Request, RequestRead, read_request, requests_are_apart, write_request};

fn fill_of_seven() -> Request {
    Request::Fill {
        source: 0,
        hole: HoleId { words: [0, 0, 7] },
    }
}

#[test]
fn a_fill_is_twenty_nine_bytes(rt: HostRuntime) -> Result<(), Fail> {
    requests_are_apart();
    let text = write_request(rt.alloc(), &fill_of_seven())?;
    let mut wanted = [0; 29];
    wanted[0] = 2;
    wanted[28] = 7;
    assert_eq!(rt; text.as_slice(), wanted.as_slice());
    assert_eq!(rt;
        read_request(&text),
        RequestRead::Got {
            request: fill_of_seven(),
            len: 29
        }
    );
    assert_eq!(rt; read_request(&text[..28]), RequestRead::More);
    Ok(())
}

#[test]
fn a_root_is_five_bytes_and_a_count_one(rt: HostRuntime) -> Result<(), Fail> {
    let root = write_request(rt.alloc(), &Request::Root(258))?;
    assert_eq!(rt; root.as_slice(), [1, 0, 0, 1, 2].as_slice());
    assert_eq!(rt;
        read_request(&root),
        RequestRead::Got {
            request: Request::Root(258),
            len: 5
        }
    );
    let count = write_request(rt.alloc(), &Request::Count)?;
    assert_eq!(rt; count.as_slice(), [0].as_slice());
    assert_eq!(rt;
        read_request(&[0, 7]),
        RequestRead::Got {
            request: Request::Count,
            len: 1
        }
    );
    assert_eq!(rt; read_request(&[3]), RequestRead::BadTag);
    Ok(())
}
