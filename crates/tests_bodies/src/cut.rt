//! A response with the longest body.
use http_messages::FetchFault;
use http_reading::read_answer;
use std::process::Abort;
use tests_kit::Pieces;

/// The text of an answer with a body of 65,536: it has 65,582 octets.
fn long_answer(rt: &(impl Abort + AllocGlobal)) -> Vec<u8> {
    let mut text = b"HTTP/1.1 200 \r\na: x\r\ncontent-length: 65536\r\n\r\n"
        .to_vec(rt.alloc())
        .expect(rt, "memory");
    text.extend_from_slice(&vec![in rt.alloc(); b'y'; 65_536].expect(rt, "memory"))
        .expect(rt, "memory");
    text
}

/// The longest body, cut at each octet.
#[test]
fn a_long_body_that_is_cut_is_refused(rt: HostRuntime) {
    let text = long_answer(&rt);
    for end in 0..text.len() {
        let fault = read_answer(
            rt.alloc(),
            &mut Pieces::new(&text[..end], usize::MAX, false),
        )
        .err();
        assert!(rt; fault == Some(FetchFault::EndOfInput), "{end}");
    }
}
