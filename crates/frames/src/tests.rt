use super::*;
use refusals::{Code, Layer};

// The number of the refusal, none if the line is read.
fn refusal_of(bytes: &[u8]) -> Option<u8> {
    read_line(bytes).err().map(|fault| fault.code().number)
}

#[test]
fn a_header_is_read(rt: HostRuntime) {
    let header = Frame::Header {
        rule: 0,
        records: 16,
    };
    assert_eq!(rt; read_line(b"00000010\n01\n"), Ok((header, 9)));
}

#[test]
fn opens_and_a_close_are_read(rt: HostRuntime) {
    assert_eq!(rt; read_line(b"01\n"), Ok((Frame::OpenTask, 3)));
    assert_eq!(rt; read_line(b"02\n"), Ok((Frame::OpenFinish, 3)));
    assert_eq!(rt; read_line(b"03\n"), Ok((Frame::Close, 3)));
}

#[test]
fn an_access_is_read(rt: HostRuntime) {
    let access = Frame::Access {
        class: 1,
        record: 5,
    };
    assert_eq!(rt; read_line(b"04010005\n"), Ok((access, 9)));
}

#[test]
fn an_end_is_read(rt: HostRuntime) {
    let end = Frame::End {
        events: 0x89AB_CDEF,
    };
    assert_eq!(rt; read_line(b"0F89ABCDEF\nrest"), Ok((end, 11)));
}

#[test]
fn what_is_no_line_is_refused(rt: HostRuntime) {
    assert_eq!(rt; refusal_of(b""), Some(1), "no bytes");
    assert_eq!(rt; refusal_of(b"\n"), Some(1), "a blank line");
    assert_eq!(rt;
        refusal_of(b"0000001\n"),
        Some(1),
        "an odd number of digits"
    );
    assert_eq!(rt; refusal_of(b"01"), Some(1), "no byte 10");
    assert_eq!(rt; refusal_of(b"01\r\n"), Some(1), "a carriage return");
    assert_eq!(rt; refusal_of(b"0f00000004\n"), Some(1), "a small letter");
    assert_eq!(rt; refusal_of(b"0G00000004\n"), Some(1), "a letter past F");
}

#[test]
fn kind_and_length_are_tested_in_this_order(rt: HostRuntime) {
    assert_eq!(rt; refusal_of(b"05\n"), Some(2));
    assert_eq!(rt; refusal_of(b"C100\n"), Some(2));
    assert_eq!(rt; refusal_of(b"0100\n"), Some(3));
    assert_eq!(rt; refusal_of(b"04\n"), Some(3));
    assert_eq!(rt; refusal_of(b"0F000004\n"), Some(3));
}

#[test]
fn a_clash_is_written(rt: HostRuntime) {
    let mut buffer = [b'*'; 24];
    assert!(rt; put_clash(&mut buffer, 3, 1, 5).is_ok());
    assert_eq!(rt; buffer, *b"C100000003000000010005\n*");
}

#[test]
fn a_verdict_is_written(rt: HostRuntime) {
    let mut buffer = [b'*'; 24];
    assert!(rt; put_verdict(&mut buffer, 2, 1).is_ok());
    assert_eq!(rt; buffer, *b"CF0000000200000001\n*****");
}

#[test]
fn a_refusal_is_written(rt: HostRuntime) {
    let mut buffer = [b'*'; 24];
    assert!(rt; put_refusal(&mut buffer, 1, 1, 1).is_ok());
    assert_eq!(rt; buffer, *b"EE010100000001\n*********");
}

#[test]
fn a_short_buffer_is_refused(rt: HostRuntime) {
    let mut buffer = [b'*'; 22];
    let refused = put_refusal(&mut buffer, 1, 1, 1).map_err(|fault| fault.code());
    let code = Code {
        number: 11,
        layer: Layer::Frame,
    };
    assert_eq!(rt; refused, Err(code));
    assert_eq!(rt; u8::from(code.layer), 2);
    assert_eq!(rt; buffer, [b'*'; 22]);
}
