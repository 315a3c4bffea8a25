//! Tests of certificate.

use cd_base::{Bytes, CloudNo, Fp, NoMemory, Shape, Tag, UserId, Version};
use certificate::{CertificateLine, FileLine, Heading, ShareLine, read_certificate, write_line};
use std::alloc::Global;
use std::test::Fail;

// The lines of a cloud with one file of one byte.
const FIRST: &[u8] = b"audit 1 4 3 0\n";

const SHARE: &[u8] =
    b"share 7306196382e41a397efac21e4f4613ec42dbce6fc69dc13a71972b7d5afc5010 0 11\n";

const FILE: &[u8] =
    b"file 7 5d68886a3c18c6681152c8912b098df2772886cc297ca017f379493ac7b5822e 1 0 61 f2c65081ae3999c365702446b19476230ccb9e2a85c5794f56ddf42d8aff7486\n";

const END: &[u8] = b"end 2\n";

fn heading() -> Heading {
    Heading {
        shape: Shape { n: 4, k: 3 },
        cloud: CloudNo(0),
    }
}

// The lines behind the heading.
fn lines() -> [CertificateLine; 3] {
    [
        CertificateLine::Share(ShareLine {
            fp: Fp([
                0x73, 0x06, 0x19, 0x63, 0x82, 0xe4, 0x1a, 0x39, 0x7e, 0xfa, 0xc2, 0x1e, 0x4f, 0x46,
                0x13, 0xec, 0x42, 0xdb, 0xce, 0x6f, 0xc6, 0x9d, 0xc1, 0x3a, 0x71, 0x97, 0x2b, 0x7d,
                0x5a, 0xfc, 0x50, 0x10,
            ]),
            at: 0,
            len: 11,
        }),
        CertificateLine::File(FileLine {
            user: UserId(7),
            tag: Tag([
                0x5d, 0x68, 0x88, 0x6a, 0x3c, 0x18, 0xc6, 0x68, 0x11, 0x52, 0xc8, 0x91, 0x2b, 0x09,
                0x8d, 0xf2, 0x77, 0x28, 0x86, 0xcc, 0x29, 0x7c, 0xa0, 0x17, 0xf3, 0x79, 0x49, 0x3a,
                0xc7, 0xb5, 0x82, 0x2e,
            ]),
            version: Version(1),
            at: 0,
            len: 61,
            fp: Fp([
                0xf2, 0xc6, 0x50, 0x81, 0xae, 0x39, 0x99, 0xc3, 0x65, 0x70, 0x24, 0x46, 0xb1, 0x94,
                0x76, 0x23, 0x0c, 0xcb, 0x9e, 0x2a, 0x85, 0xc5, 0x79, 0x4f, 0x56, 0xdd, 0xf4, 0x2d,
                0x8a, 0xff, 0x74, 0x86,
            ]),
        }),
        CertificateLine::End { count: 2 },
    ]
}

fn text_of(alloc: Global) -> Result<Bytes, NoMemory> {
    let mut text = Bytes::new(alloc);
    write_line(&CertificateLine::Heading(heading()), &mut text)?;
    for line in &lines() {
        write_line(line, &mut text)?;
    }
    Ok(text)
}

fn wanted(alloc: Global) -> Result<Bytes, NoMemory> {
    let mut text = Bytes::new(alloc);
    for piece in [FIRST, SHARE, FILE, END] {
        text.extend(piece)?;
    }
    Ok(text)
}

// Whether the lines are spelled so, and are read as a certificate of the cloud.
fn is_certificate(alloc: Global, wanted: &[u8]) -> Result<bool, NoMemory> {
    let text = text_of(alloc)?;
    Ok(*text.as_slice() == *wanted && read_certificate(text.as_slice()) == Ok(heading()))
}

#[test]
fn a_certificate(rt: HostRuntime) -> Result<(), Fail> {
    let text = wanted(rt.alloc())?;
    let well = is_certificate(rt.alloc(), text.as_slice());
    drop(text);
    assert!(rt; well?);
    Ok(())
}
